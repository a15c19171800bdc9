// Vectors of one buffer, `slots` words each: one rotated in place, and one added rotated to another.
ghost use Rattle.std.specs.Prelude.{◌≡◌, ◌≤◌, ◌++◌, length, take, drop};
ghost use Rattle.ring.specs.Slots.{modulus};
ghost use Rattle.ring.specs.Vectors.{tabulate};
ghost use Rattle.runs.specs.Machines.{vector_at, put_vector, turned, summed};
ghost use Rattle.runs.specs.Steps.Keyed.{vector_added, TurnAsked, AddTurn};

// By three reversals: the library's `rotate_left` is calls of C's `memmove`, which a program that links the archive would have
// to have.
fn rotate_in_place(vector: &mut [u64], k: usize)
    requires { k ≤ length vector.old }
    ensures { vector.new ≡ drop k vector.old ++ take k vector.old }
{
    vector[..k].reverse();
    vector[k..].reverse();
    vector.reverse();
}

// The vector at a place, rotated by k.
pub(crate) fn rotate_at(buffer: &mut [u64], slots: usize, place: usize, k: usize)
    requires { TurnAsked slots buffer.old place k }
    ensures { buffer.new ≡ put_vector slots buffer.old place (turned slots (vector_at slots buffer.old place) k) }
{
    let start = place * slots;
    let end = start + slots;
    rotate_in_place(&mut buffer[start..end], k);
}

pub(crate) fn add_vector(vector: &[u64], out: &mut [u64])
    requires { length vector.now ≡ length out.old }
    ensures { out.new ≡ tabulate (length out.old) (vector_added vector.now out.old) }
{
    for (s, sum) in out.iter_mut().enumerate() {
        *sum = sum.wrapping_add(vector[s]);
    }
}

// Adds the vector at `odd`, rotated by k, to the one at the earlier place `even`. The rotated vector
// comes in two straight runs.
pub(crate) fn add_turned(buffer: &mut [u64], slots: usize, even: usize, odd: usize, k: usize)
    requires { AddTurn slots buffer.old even odd k }
    ensures { buffer.new ≡ put_vector slots buffer.old even (summed modulus slots (vector_at slots buffer.old even) (turned slots (vector_at slots buffer.old odd) k)) }
{
    let (before, rest) = buffer.split_at_mut(odd * slots);
    let start = even * slots;
    let end = start + slots;
    let middle = end - k;
    add_vector(&rest[k..slots], &mut before[start..middle]);
    add_vector(&rest[..k], &mut before[middle..end]);
}
