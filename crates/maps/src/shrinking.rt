// Every diagonal at the common period, in its place.
ghost use Rattle.std.specs.Prelude.{◌≡◌, ◌*◌, ◌≤◌, length};
ghost use Rattle.ring.specs.Vectors.{filled, in_front};
ghost use Rattle.diagonals.specs.Maps.{pair_room, offset_at};
ghost use Rattle.maps.specs.Steps.Rows.{row_pairs};
ghost use Rattle.maps.specs.Steps.Shrinking.{Even, Shrank, Narrowing, moved_at};

// Kept: by their number, since only the store writes a pair.
fn write_lengths(count: usize, p: usize, pairs: &mut [u32])
    requires p_bound { p ≤ 65536 }
    requires count_in_bounds { pair_room count ≤ length pairs.old }
    ensures { pairs.new ≡ in_front (row_pairs (offset_at pairs.old) p count) pairs.old }
{
    for i in 0..count {
        let offset = diagonals::offset_at(pairs, i);
        diagonals::put_pair(pairs, i, offset, p as u32);
    }
}

// The first p of every `period` values, back to back.
// Kept: by their number, since a walk by `chunks_exact` would borrow the slice that `copy_within` writes.
fn move_rows(period: usize, p: usize, count: usize, values: &mut [u64])
    requires { Narrowing period p count values.old }
    ensures { values.new ≡ filled (moved_at period p values.old) (count * p) values.old }
{
    for i in 0..count {
        let from = i * period;
        values.copy_within(from..from + p, i * p);
    }
}

// Stores the diagonals of a map, all of length `period`, at their common period. No such map is refused.
// Kept: C lends a map's buffers, which this call writes, and a `Map` has its buffers by `&`.
pub(crate) fn shrink_in_place(
    slots: usize,
    period: usize,
    count: usize,
    pairs: &mut [u32],
    values: &mut [u64],
)
    requires { Even slots period count pairs.old values.old }
    ensures { Shrank period count pairs.old pairs.new values.old values.new }
{
    let p = diagonals::shrunk_period(slots, count, pairs, values).unwrap();
    if p == period {
        return;
    }
    write_lengths(count, p, pairs);
    move_rows(period, p, count, values);
}
