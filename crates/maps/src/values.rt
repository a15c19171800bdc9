// Skewed values, products by slot vectors and projections.
ghost use Rattle.std.specs.Prelude.{◌≡◌, ◌*◌, ◌^◌, ◌<◌, ◌≤◌, true, false, length};
ghost use Rattle.std.specs.Int.{◌∣◌};
ghost use Rattle.ring.specs.Vectors.{tabulate};
ghost use Rattle.maps.specs.Values.{first_row, first_col};
ghost use Rattle.maps.specs.Calls.{ValuesWritten, SlotProductWritten, TiledWritten};
ghost use Rattle.maps.specs.Steps.Rows.{ones};
ghost use Rattle.maps.specs.Steps.Values.{turns_rows, skewed_place, skewed_at, ValuesJudged, OnesWritten};

use crate::side::Side;
use ring::Refusal;

// What a skew turns: the row of an entry by its column, or the column by its row.
#[derive(Clone, Copy)]
enum Skew {
    Rows,
    Columns,
}

impl Skew {
    // Where the skewed entry of slot t stands.
    fn place(self, side: Side, t: usize) -> usize
        requires { t < 65536 }
        ensures { result ≡ skewed_place (turns_rows self) (2 ^ side.log_d) t }
    {
        let d = side.rows();
        let size = side.size();
        let start = t / size * size;
        let row = t / d % d;
        let col = t % d;
        let turned = (row + col) % d;
        match self {
            Skew::Rows => start + (turned * d + col),
            Skew::Columns => start + (row * d + turned),
        }
    }
}

fn write_skewed(skew: Skew, side: Side, b: &[u64], out: &mut [u64])
    requires fact { 2 ^ side.log_d * 2 ^ side.log_d ∣ length b.now }
    requires b_len_bound { length b.now ≤ 65536 }
    requires out_len { length out.old ≡ length b.now }
    ensures { out.new ≡ tabulate (length out.old) (skewed_at (turns_rows skew) (2 ^ side.log_d) b.now) }
{
    for (t, value) in out.iter_mut().enumerate() {
        *value = b[skew.place(side, t)];
    }
}

// The side of `count` matrices in a list of so many words. Refuses with 5 matrices that are too large
// or none, with 7 a list that is not as long as they.
fn check_values(log_d: usize, count: usize, len: usize) -> Result<Side, Refusal>
    ensures { ValuesJudged log_d count len result }
{
    if 8 < log_d || count == 0 || 65536 < count {
        return Err(Refusal::Matrices);
    }
    let side = Side { log_d };
    let total = count * side.size();
    if 65536 < total {
        return Err(Refusal::Matrices);
    }
    if len != total {
        return Err(Refusal::Length);
    }
    Ok(side)
}

// Kept: what C passes, on its way to `check_values`.
fn skewed_values(
    skew: Skew,
    log_d: usize,
    count: usize,
    b: &[u64],
    out: &mut [u64],
) -> Result<usize, Refusal>
    ensures { ValuesWritten (turns_rows skew) log_d count b.now out.old out.new result }
{
    let side = check_values(log_d, count, b.len())?;
    if out.len() < b.len() {
        return Err(Refusal::Room);
    }
    write_skewed(skew, side, b, &mut out[..b.len()]);
    Ok(b.len())
}

// Tau of public matrices: entry (r, c) is b's at ((r + c) mod d, c).
// Kept: these two are the names that C calls, each one call of `skewed_values`.
pub fn tau_values(log_d: usize, count: usize, b: &[u64], out: &mut [u64]) -> Result<usize, Refusal>
    ensures { ValuesWritten true log_d count b.now out.old out.new result }
{
    skewed_values(Skew::Rows, log_d, count, b, out)
}

// Sigma of public matrices: entry (r, c) is b's at (r, (r + c) mod d).
// Kept: a name that C calls, with the arguments that it passes.
pub fn sigma_values(
    log_d: usize,
    count: usize,
    b: &[u64],
    out: &mut [u64],
) -> Result<usize, Refusal>
    ensures { ValuesWritten false log_d count b.now out.old out.new result }
{
    skewed_values(Skew::Columns, log_d, count, b, out)
}

fn write_ones(n: usize, out: &mut [u64])
    ensures { out.new ≡ tabulate (length out.old) (ones n) }
{
    for (t, value) in out.iter_mut().enumerate() {
        *value = (t < n) as u64;
    }
}

// One diagonal at offset 0 of `len` values, the first n of them 1 and the others 0.
// Kept: C lends the two buffers one by one, and a struct of two `&mut` has no ghost fields.
fn project(n: usize, len: usize, pairs: &mut [u32], values: &mut [u64]) -> Result<usize, Refusal>
    requires { len ≤ 65536 }
    ensures { OnesWritten n len pairs.old pairs.new values.old values.new result }
{
    diagonals::check_room(1, len, pairs.len(), values.len())?;
    diagonals::put_pair(pairs, 0, 0, len as u32);
    write_ones(n, &mut values[..len]);
    Ok(1)
}

// The projection on row 0, stored at d².
// Kept: a name that C calls, with the arguments that it passes.
pub fn first_row(
    slots: usize,
    log_d: usize,
    pairs: &mut [u32],
    values: &mut [u64],
) -> Result<usize, Refusal>
    ensures { TiledWritten slots log_d (first_row (2 ^ log_d)) pairs.old pairs.new values.old values.new result }
{
    let side = crate::tiles::check_tiles(slots, log_d, 1)?;
    project(side.rows(), side.size(), pairs, values)
}

// The projection on column 0, stored at d.
// Kept: a name that C calls, with the arguments that it passes.
pub fn first_col(
    slots: usize,
    log_d: usize,
    pairs: &mut [u32],
    values: &mut [u64],
) -> Result<usize, Refusal>
    ensures { TiledWritten slots log_d (first_col (2 ^ log_d)) pairs.old pairs.new values.old values.new result }
{
    let side = crate::tiles::check_tiles(slots, log_d, 1)?;
    project(1, side.rows(), pairs, values)
}

// The product by the slot vector v rotated: one diagonal at offset 0.
// Kept: the test of refusal 4 by itself, since the store's `is_period` takes u32s, and v may be longer than they go.
pub fn slot_product(
    slots: usize,
    v: &[u64],
    rotation: i64,
    pairs: &mut [u32],
    values: &mut [u64],
) -> Result<usize, Refusal>
    ensures { SlotProductWritten slots v.now rotation pairs.old pairs.new values.old values.new result }
{
    if ring::is_outside(slots) {
        return Err(Refusal::Slots);
    }
    let n = v.len();
    if n == 0 || slots % n != 0 {
        return Err(Refusal::Period);
    }
    diagonals::check_room(1, n, pairs.len(), values.len())?;
    diagonals::put_pair(pairs, 0, 0, n as u32);
    diagonals::rotate_slots_into(v, rotation, &mut values[..n])?;
    Ok(1)
}
