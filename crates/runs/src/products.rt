// Products of a period and a vector, added to what is lent: how both runs add a diagonal.
ghost use Rattle.std.specs.Prelude.{◌≡◌, ◌≤◌, length};
ghost use Rattle.ring.specs.Vectors.{tabulate};
ghost use Rattle.runs.specs.Steps.Plain.{Around, around_added};

// Adds to part[j] the period's word at from + j, around it, times vector[j].
// Kept: a loop over s. With `chunks_mut` and `chunks` the goal `returns` does not close: nothing is known of
// what part holds once they are walked.
fn add_around(period: &[u64], from: usize, vector: &[u64], part: &mut [u64])
    requires { Around period.now from vector.now part.old }
    ensures { part.new ≡ tabulate (length part.old) (around_added period.now from vector.now part.old) }
{
    let n = part.len();
    let len = period.len();
    let mut s = 0;
    while s < n {
        let at = (from + s) % len;
        let run = (len - at).min(n - s);
        let to = at + run;
        let end = s + run;
        ring::multiply_add_into(&period[at..to], &vector[s..end], &mut part[s..end]).unwrap();
        s = end;
    }
}

// The same. Where four copies of the period fit the table they are laid out there first, so that runs
// are long.
pub(crate) fn add_period(
    period: &[u64],
    from: usize,
    vector: &[u64],
    table: &mut [u64],
    part: &mut [u64],
)
    requires around { Around period.now from vector.now part.old }
    requires table_len_bound { length table.old ≤ 65536 }
    ensures { part.new ≡ tabulate (length part.old) (around_added period.now from vector.now part.old) }
{
    let len = period.len();
    let room = table.len().min(part.len());
    if room / 4 < len {
        add_around(period, from, vector, part);
        return;
    }
    let whole = room - room % len;
    diagonals::rotate_slots_into(period, 0, &mut table[..whole]).unwrap();
    add_around(&table[..whole], from, vector, part);
}
