// The map store and the plain run. A map is its slots, its number of pairs, its pairs and its values.
ghost use Rattle.std.specs.Prelude.{◌≡◌, ◌==◌, length};
ghost use Rattle.ring.specs.Answers.{numbers, answered};
ghost use Rattle.diagonals.specs.Maps.{view};
ghost use Rattle.diagonals.specs.Calls.{new_refusal, map_refusal, gotten, truths, Judged, Indexes, SetWritten, SlotMapWritten, ShrinkWritten, TransposeWritten, Rotated};
ghost use Rattle.runs.specs.Calls.{Evaluated};
ghost use Rattle.sibukyaran.specs.Kinds.{strategy_of};
ghost use Rattle.sibukyaran.specs.Numbers.{told, told_truth, Told, CodeTold, GotInto};

use diagonals::Map;
use ring::Refusal;

#[unsafe(no_mangle)]
pub extern "C" fn sibukyaran_new(slots: usize) -> crate::Numbers
    ensures { told result ≡ numbers (answered (new_refusal slots) 0) }
{
    diagonals::new(slots).into()
}

#[unsafe(no_mangle)]
pub extern "C" fn sibukyaran_map_refusal(
    slots: usize,
    count: usize,
    pairs: &[u32],
    values: &[u64],
) -> u32
    ensures { CodeTold (Judged slots count pairs.now values.now) result }
{
    crate::code_of(diagonals::check_map(slots, count, pairs, values))
}

#[unsafe(no_mangle)]
pub extern "C" fn sibukyaran_is_empty(
    slots: usize,
    count: usize,
    pairs: &[u32],
    values: &[u64],
) -> crate::Truth
    ensures { told_truth result ≡ truths (answered (map_refusal slots count pairs.now values.now) (length (view count pairs.now values.now) == 0)) }
{
    diagonals::is_empty(slots, count, pairs, values).into()
}

#[unsafe(no_mangle)]
pub extern "C" fn sibukyaran_indexes(
    slots: usize,
    count: usize,
    pairs: &[u32],
    values: &[u64],
    out: &mut [u32],
) -> crate::Numbers
    ensures { Told (Indexes slots count pairs.now values.now out.old out.new) result }
{
    diagonals::indexes(slots, count, pairs, values, out).into()
}

#[unsafe(no_mangle)]
pub extern "C" fn sibukyaran_period(
    slots: usize,
    count: usize,
    pairs: &[u32],
    values: &[u64],
    index: i64,
) -> crate::Numbers
    ensures { told result ≡ numbers (answered (map_refusal slots count pairs.now values.now) (length (gotten slots count pairs.now values.now index))) }
{
    diagonals::period(slots, count, pairs, values, index).into()
}

#[unsafe(no_mangle)]
pub extern "C" fn sibukyaran_set(
    slots: usize,
    count: usize,
    pairs: &mut [u32],
    values: &mut [u64],
    index: i64,
    new: &[u64],
) -> crate::Numbers
    ensures { Told (SetWritten slots count pairs.old pairs.new values.old values.new index new.now) result }
{
    diagonals::set(slots, count, pairs, values, index, new).into()
}

#[unsafe(no_mangle)]
pub extern "C" fn sibukyaran_from_slot_map(
    slots: usize,
    period: usize,
    is: &[u32],
    js: &[u32],
    ws: &[u64],
    pairs: &mut [u32],
    values: &mut [u64],
) -> crate::Numbers
    ensures { Told (SlotMapWritten slots period is.now js.now ws.now pairs.old pairs.new values.old values.new) result }
{
    diagonals::from_slot_map(slots, period, is, js, ws, pairs, values).into()
}

#[unsafe(no_mangle)]
pub extern "C" fn sibukyaran_rotate_slots_into(src: &[u64], k: i64, out: &mut [u64]) -> u32
    ensures { CodeTold (Rotated src.now k out.old out.new) result }
{
    crate::code_of(diagonals::rotate_slots_into(src, k, out))
}

#[unsafe(no_mangle)]
pub extern "C" fn sibukyaran_shrink_period(
    slots: usize,
    count: usize,
    pairs: &[u32],
    values: &[u64],
    pairs_out: &mut [u32],
    values_out: &mut [u64],
) -> crate::Numbers
    ensures { Told (ShrinkWritten slots count pairs.now values.now pairs_out.old pairs_out.new values_out.old values_out.new) result }
{
    diagonals::shrink_period(slots, count, pairs, values, pairs_out, values_out).into()
}

#[unsafe(no_mangle)]
pub extern "C" fn sibukyaran_transpose(
    slots: usize,
    count: usize,
    pairs: &[u32],
    values: &[u64],
    pairs_out: &mut [u32],
    values_out: &mut [u64],
) -> crate::Numbers
    ensures { Told (TransposeWritten slots count pairs.now values.now pairs_out.old pairs_out.new values_out.old values_out.new) result }
{
    diagonals::transpose(slots, count, pairs, values, pairs_out, values_out).into()
}

#[unsafe(no_mangle)]
pub extern "C" fn sibukyaran_evaluate(
    slots: usize,
    count: usize,
    pairs: &[u32],
    values: &[u64],
    input: &[u64],
    strategy: u32,
    giant_step: usize,
    out: &mut [u64],
) -> u32
    ensures { CodeTold (Evaluated slots count pairs.now values.now input.now (strategy_of strategy giant_step) out.old out.new) result }
{
    let how = crate::kinds::strategy_of(strategy, giant_step);
    crate::code_of(runs::evaluate(slots, count, pairs, values, input, how, out))
}

// The stretch that `get` hands back, in front of out.
// Kept: C lends a map as slots, a count and two buffers.
fn get_into(
    slots: usize,
    count: usize,
    pairs: &[u32],
    values: &[u64],
    index: i64,
    out: &mut [u64],
) -> Result<usize, Refusal>
    ensures { GotInto slots count pairs.now values.now index out.old out.new result }
{
    let stretch = Map::accept(slots, count, pairs, values)?.get(index);
    let n = stretch.len();
    if out.len() < n {
        return Err(Refusal::Room);
    }
    ring::copy_into(stretch, &mut out[..n]);
    Ok(n)
}

// A C function cannot return a part of a slice, as `get` does.
#[unsafe(no_mangle)]
pub extern "C" fn sibukyaran_get_into(
    slots: usize,
    count: usize,
    pairs: &[u32],
    values: &[u64],
    index: i64,
    out: &mut [u64],
) -> crate::Numbers
    ensures { Told (GotInto slots count pairs.now values.now index out.old out.new) result }
{
    get_into(slots, count, pairs, values, index, out).into()
}
