// The map of terms that every matrix slot shares.
ghost use Rattle.maps.specs.Calls.{PerMatrixWritten};

use ring::Refusal;

// The slot map of the terms at period d², shrunk: pairs and values need room for it before that.
// Kept: C passes the terms as three lists.
pub fn per_matrix_map(
    slots: usize,
    log_d: usize,
    is: &[u32],
    js: &[u32],
    ws: &[u64],
    pairs: &mut [u32],
    values: &mut [u64],
) -> Result<usize, Refusal>
    ensures { PerMatrixWritten slots log_d is.now js.now ws.now pairs.old pairs.new values.old values.new result }
{
    let period = crate::tiles::check_tiles(slots, log_d, 1)?.size();
    let count = diagonals::from_slot_map(slots, period, is, js, ws, pairs, values)?;
    crate::shrinking::shrink_in_place(slots, period, count, pairs, values);
    Ok(count)
}
