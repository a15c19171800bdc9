// Maps on replicated inputs, every matrix slot holding the same matrix: a rotation then wraps inside
// a block.
ghost use Rattle.std.specs.Prelude.{◌≡◌, ◌*◌, ◌^◌, ◌<◌, ◌≤◌, length};
ghost use Rattle.ring.specs.Vectors.{tabulate, in_front};
ghost use Rattle.diagonals.specs.Maps.{pair_room};
ghost use Rattle.maps.specs.Readings.{tau_rep};
ghost use Rattle.maps.specs.Calls.{TiledWritten, RowsRepWritten, LeftMulRepWritten};
ghost use Rattle.maps.specs.Steps.Rows.{row_pairs, row_value, mask, turned_at, turned_place};

use crate::side::Side;
use ring::Refusal;

// The pairs of d diagonals, the i-th at offset i·d.
// Kept: by their number, since only the store writes a pair.
fn write_pairs(d: usize, len: usize, pairs: &mut [u32])
    requires d_bound { d ≤ 256 }
    requires len_bound { len ≤ 65536 }
    requires d_in_bounds { pair_room d ≤ length pairs.old }
    ensures { pairs.new ≡ in_front (row_pairs (λ i. i * d) len d) pairs.old }
{
    for i in 0..d {
        diagonals::put_pair(pairs, i, (i * d) as u32, len as u32);
    }
}

// The masks of the d columns.
fn write_masks(side: Side, out: &mut [u64])
    requires { length out.old ≡ 2 ^ side.log_d * 2 ^ side.log_d }
    ensures { out.new ≡ tabulate (length out.old) (row_value (2 ^ side.log_d) mask) }
{
    let d = side.rows();
    for (x, value) in out.iter_mut().enumerate() {
        *value = (x % d == x / d) as u64;
    }
}

// JKLS tau: output (r, c) reads ((r + c) mod d, c), through the rotation by c·d.
// Kept: C passes the numbers and the two buffers one by one.
pub fn tau_rep(
    slots: usize,
    log_d: usize,
    pairs: &mut [u32],
    values: &mut [u64],
) -> Result<usize, Refusal>
    ensures { TiledWritten slots log_d (tau_rep (2 ^ log_d)) pairs.old pairs.new values.old values.new result }
{
    let side = crate::tiles::check_tiles(slots, log_d, 1)?;
    let d = side.rows();
    let total = side.size();
    diagonals::check_room(d, total, pairs.len(), values.len())?;
    write_pairs(d, d, pairs);
    write_masks(side, &mut values[..total]);
    Ok(d)
}

// The rotation of the rows by k: the rotation by k·d, for k in 1..d.
// Kept: a name that C calls, with the arguments that it passes.
pub fn rotate_rows_rep(
    slots: usize,
    log_d: usize,
    k: usize,
    pairs: &mut [u32],
    values: &mut [u64],
) -> Result<usize, Refusal>
    ensures { RowsRepWritten slots log_d k pairs.old pairs.new values.old values.new result }
{
    let d = crate::tiles::check_tiles(slots, log_d, 1)?.rows();
    if k < 1 || d <= k {
        return Err(Refusal::Shift);
    }
    diagonals::check_room(1, 1, pairs.len(), values.len())?;
    diagonals::put_pair(pairs, 0, (k * d % slots) as u32, 1);
    values[0] = 1;
    Ok(1)
}

// Where the x-th value of the left product is read.
fn turned_place(side: Side, x: usize) -> usize
    requires { x < 2 ^ 24 }
    ensures { result ≡ row_value (2 ^ side.log_d * 2 ^ side.log_d) (turned_place (2 ^ side.log_d)) x }
{
    let d = side.rows();
    let size = side.size();
    let row = x % size / d;
    row * d + (row + x / size) % d
}

fn write_turned(side: Side, b: &[u64], out: &mut [u64])
    requires b_len { length b.now ≡ 2 ^ side.log_d * 2 ^ side.log_d }
    requires out_len { length out.old ≡ 2 ^ side.log_d * (2 ^ side.log_d * 2 ^ side.log_d) }
    ensures { out.new ≡ tabulate (length out.old) (row_value (2 ^ side.log_d * 2 ^ side.log_d) (turned_at (2 ^ side.log_d) b.now)) }
{
    for (x, value) in out.iter_mut().enumerate() {
        *value = b[turned_place(side, x)];
    }
}

// The left product by one public matrix: at offset j·d the entries b(r, (r + j) mod d), stored at d².
// Kept: a name that C calls, with the arguments that it passes.
pub fn left_mul_rep(
    slots: usize,
    log_d: usize,
    b: &[u64],
    pairs: &mut [u32],
    values: &mut [u64],
) -> Result<usize, Refusal>
    ensures { LeftMulRepWritten slots log_d b.now pairs.old pairs.new values.old values.new result }
{
    let side = crate::tiles::check_tiles(slots, log_d, 1)?;
    let d = side.rows();
    if b.len() != side.size() {
        return Err(Refusal::Length);
    }
    let total = d * b.len();
    diagonals::check_room(d, total, pairs.len(), values.len())?;
    write_pairs(d, b.len(), pairs);
    write_turned(side, b, &mut values[..total]);
    Ok(d)
}
