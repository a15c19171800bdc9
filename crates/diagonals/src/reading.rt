// The empty map, and reading one.
ghost use Rattle.std.specs.Prelude.{◌≡◌, length, ◌==◌};
ghost use Rattle.ring.specs.Answers.{answered};
ghost use Rattle.diagonals.specs.Maps.{value_words, view};
ghost use Rattle.diagonals.specs.Calls.{new_refusal, map_refusal, gotten, Indexes};

use crate::map::Map;
use ring::Refusal;

// The number of pairs of the empty map, which has no words.
pub fn new(slots: usize) -> Result<usize, Refusal>
    ensures { result ≡ answered (new_refusal slots) 0 }
{
    if ring::is_outside(slots) {
        return Err(Refusal::Slots);
    }
    Ok(0)
}

// Whether no diagonal is stored.
// Kept: C lends a map as slots, a count and two buffers.
pub fn is_empty(slots: usize, count: usize, pairs: &[u32], values: &[u64]) -> Result<bool, Refusal>
    ensures { result ≡ answered (map_refusal slots count pairs.now values.now) (length (view count pairs.now values.now) == 0) }
{
    Ok(Map::accept(slots, count, pairs, values)?.count == 0)
}

// The number of values that a map has.
// Kept: a public call takes a map's parts one by one, since its callers have no `Map`.
pub fn used_values(
    slots: usize,
    count: usize,
    pairs: &[u32],
    values: &[u64],
) -> Result<usize, Refusal>
    ensures { result ≡ answered (map_refusal slots count pairs.now values.now) (length (value_words (view count pairs.now values.now))) }
{
    Ok(Map::accept(slots, count, pairs, values)?.total)
}

// One period of the diagonal at `index`, a part of values; empty where it is absent or the map is refused.
// Kept: C lends a map as slots, a count and two buffers.
pub fn get<'a>(
    slots: usize,
    count: usize,
    pairs: &[u32],
    values: &'a [u64],
    index: i64,
) -> &'a [u64]
    ensures { result.now ≡ gotten slots count pairs.now values.now index }
{
    match Map::accept(slots, count, pairs, values) {
        Ok(map) => map.get(index),
        Err(_) => &values[..0],
    }
}

// The length of the stored period of the diagonal at `index`; 0 where it is absent.
// Kept: C lends a map as slots, a count and two buffers.
pub fn period(
    slots: usize,
    count: usize,
    pairs: &[u32],
    values: &[u64],
    index: i64,
) -> Result<usize, Refusal>
    ensures { result ≡ answered (map_refusal slots count pairs.now values.now) (length (gotten slots count pairs.now values.now index)) }
{
    Ok(Map::accept(slots, count, pairs, values)?.get(index).len())
}

// The offsets of the stored diagonals, in front of out.
// Kept: C lends a map as slots, a count and two buffers.
pub fn indexes(
    slots: usize,
    count: usize,
    pairs: &[u32],
    values: &[u64],
    out: &mut [u32],
) -> Result<usize, Refusal>
    ensures { Indexes slots count pairs.now values.now out.old out.new result }
{
    let map = Map::accept(slots, count, pairs, values)?;
    if out.len() < count {
        return Err(Refusal::Room);
    }
    for (i, &[offset, _]) in map.entries().iter().enumerate() {
        out[i] = offset;
    }
    Ok(count)
}
