// The plain run (`evaluate` of poulpy's diagonals.rs): a map times an input, slot by slot. Refusals are
// those of document 01.
#![tactic(auto)]

mod answering;
mod caching;
mod giants;
pub mod keyed;
mod nodes;
mod products;
mod run;
mod surveying;
mod tree;
mod turning;

ghost use Rattle.std.specs.Prelude.{◌≡◌, ◌≤◌, length};
ghost use Rattle.ring.specs.Slots.{modulus};
ghost use Rattle.ring.specs.Vectors.{tabulate};
ghost use Rattle.diagonals.specs.Products.{product};
ghost use Rattle.runs.specs.Calls.{Evaluated};
ghost use Rattle.runs.specs.Steps.Plain.{diagonal_added, Repeated};
ghost use Rattle.runs.specs.Steps.Surveys.{stored_in};

use diagonals::Map;
use ring::Refusal;

// Adds a diagonal, given by one period: times the input from k on up to its end, and from its start on.
fn add_diagonal(period: &[u64], k: usize, input: &[u64], table: &mut [u64], out: &mut [u64])
    requires repeated { Repeated period.now k input.now out.old }
    requires table_len_bound { length table.old ≤ 65536 }
    ensures { out.new ≡ tabulate (length out.old) (diagonal_added period.now k input.now out.old) }
{
    let head = out.len() - k;
    products::add_period(period, 0, &input[k..], table, &mut out[..head]);
    let from = head % period.len();
    products::add_period(period, from, &input[..k], table, &mut out[head..]);
}

// The map times the input. A larger table is no faster at 65,536 slots, and a small map pays for
// clearing it.
// Kept: there is no heap memory, so the table has a fixed length.
fn multiply(map: &Map<'_, '_>, input: &[u64], out: &mut [u64])
    requires input_len { length input.now ≡ map.now.slots }
    requires out_len { length out.old ≡ map.now.slots }
    ensures { out.new ≡ tabulate map.now.slots (product modulus map.now.slots (stored_in map.now) input.now) }
{
    out.fill(0);
    let mut table = [0u64; 512];
    let mut rest = map.values;
    for &[offset, len] in map.entries() {
        let (period, behind) = rest.split_at(len as usize);
        add_diagonal(period, offset as usize, input, &mut table, out);
        rest = behind;
    }
}

// The product of a map and an input into the first slots words of out, the same whichever the
// strategy. Refuses with 1 or 2 a map, with 3 a strategy's width, with 7 an input that is not slots
// long and with 12 an out that is shorter than slots.
// Kept: the parts of the map one by one, as C lends them.
pub fn evaluate(
    slots: usize,
    count: usize,
    pairs: &[u32],
    values: &[u64],
    input: &[u64],
    strategy: linear_transformation::LinearTransformationStrategy,
    out: &mut [u64],
) -> Result<(), Refusal>
    ensures { Evaluated slots count pairs.now values.now input.now strategy out.old out.new result }
{
    let map = Map::accept(slots, count, pairs, values)?;
    if linear_transformation::is_width_outside(strategy) {
        return Err(Refusal::OutOfRange);
    }
    if input.len() != slots {
        return Err(Refusal::Length);
    }
    if out.len() < slots {
        return Err(Refusal::Room);
    }
    multiply(&map, input, &mut out[..slots]);
    Ok(())
}
