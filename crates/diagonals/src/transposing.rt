// The transposed matrix.
ghost use Rattle.std.specs.Prelude.{◌≡◌, ◌<◌};
ghost use Rattle.diagonals.specs.Maps.{view};
ghost use Rattle.diagonals.specs.Transposing.{opposite, transposed};
ghost use Rattle.diagonals.specs.Calls.{TransposeWritten};
ghost use Rattle.diagonals.specs.Steps.Writing.{Turning, Turned};

use crate::map::Map;
use crate::pairs;
use ring::Refusal;

// -k mod slots
fn opposite_of(slots: usize, k: usize) -> usize
    requires { k < slots }
    ensures { result ≡ opposite slots k }
{
    if k == 0 {
        return 0;
    }
    slots - k
}

// The n-th diagonal of the transposed map, from one of the map at offset k, whose values are `part`.
fn append_turned(
    slots: usize,
    k: u32,
    part: &[u64],
    n: usize,
    at: usize,
    pairs_out: &mut [u32],
    values_out: &mut [u64],
)
    requires { Turning slots k part.now n at pairs_out.old values_out.old }
    ensures { Turned slots k part.now n at pairs_out.old pairs_out.new values_out.old values_out.new }
{
    let k = opposite_of(slots, k as usize);
    let len = part.len();
    crate::append(part, k % len, k as u32, len, n, at, pairs_out, values_out);
}

impl Map<'_, '_> {
    ghost use Rattle.diagonals.specs.Steps.Writing.{Transposing, Rest, Words};

    // The diagonals from the last down to the `first`, behind the `first` that stand in front already,
    // whose values are the `front` first.
    fn write_rest(&self, first: usize, front: usize, pairs_out: &mut [u32], values_out: &mut [u64])
        requires { Rest self.now.slots self.now.count first self.now.pairs.now self.now.values.now front pairs_out.old values_out.old }
        ensures { Words (transposed self.now.slots (view self.now.count self.now.pairs.now self.now.values.now)) pairs_out.old pairs_out.new values_out.old values_out.new }
    {
        let mut end = self.total;
        let mut at = front;
        for (n, &[k, len]) in self.entries()[first..].iter().rev().enumerate() {
            let start = end - len as usize;
            let part = &self.values[start..end];
            append_turned(self.slots, k, part, first + n, at, pairs_out, values_out);
            at += len as usize;
            end = start;
        }
    }

    // A first diagonal at offset 0 stays first, and the others follow in reverse.
    fn write_transposed(&self, pairs_out: &mut [u32], values_out: &mut [u64])
        requires { Transposing self.now.count self.now.pairs.now pairs_out.old values_out.old }
        ensures { Words (transposed self.now.slots (view self.now.count self.now.pairs.now self.now.values.now)) pairs_out.old pairs_out.new values_out.old values_out.new }
    {
        if self.count == 0 || pairs::offset_at(self.pairs, 0) != 0 {
            self.write_rest(0, 0, pairs_out, values_out);
            return;
        }
        let front = pairs::length_at(self.pairs, 0) as usize;
        append_turned(
            self.slots,
            0,
            &self.values[..front],
            0,
            0,
            pairs_out,
            values_out,
        );
        self.write_rest(1, front, pairs_out, values_out);
    }
}

// Transposes the matrix, into a second map: offset k goes to -k mod slots, its period rotated left by
// (-k) mod slots.
// Kept: C lends a map as slots, a count and two buffers.
pub fn transpose(
    slots: usize,
    count: usize,
    pairs: &[u32],
    values: &[u64],
    pairs_out: &mut [u32],
    values_out: &mut [u64],
) -> Result<usize, Refusal>
    ensures { TransposeWritten slots count pairs.now values.now pairs_out.old pairs_out.new values_out.old values_out.new result }
{
    let map = Map::accept(slots, count, pairs, values)?;
    crate::check_room(count, map.total, pairs_out.len(), values_out.len())?;
    map.write_transposed(pairs_out, values_out);
    Ok(count)
}
