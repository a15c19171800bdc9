// All diagonals at one period, the smallest that serves them all.
ghost use Rattle.std.specs.Prelude.{◌≡◌};
ghost use Rattle.ring.specs.Answers.{answered};
ghost use Rattle.diagonals.specs.Maps.{view};
ghost use Rattle.diagonals.specs.Shrinking.{common_period};
ghost use Rattle.diagonals.specs.Calls.{map_refusal, ShrinkWritten};

use crate::map::Map;
use ring::Refusal;

// What both calls take of a map: the common period, and the map at it.
impl Map<'_, '_> {
    ghost use Rattle.diagonals.specs.Steps.Writing.{Common, Shrinking, Shrunk};

    // Neither a stored diagonal nor a period of one is refused.
    fn common_period(&self) -> usize
        ensures { Common (view self.now.count self.now.pairs.now self.now.values.now) result }
    {
        let mut period = 1;
        let mut rest = self.values;
        for &[_, len] in self.entries() {
            let (part, behind) = rest.split_at(len as usize);
            let smallest = ring::min_period(part).unwrap();
            period = ring::period_lcm(period, smallest).unwrap();
            rest = behind;
        }
        period
    }

    fn write_shrunk(&self, period: usize, pairs_out: &mut [u32], values_out: &mut [u64])
        requires { Shrinking self.now.count period pairs_out.old values_out.old }
        ensures { Shrunk self.now.count self.now.pairs.now self.now.values.now period pairs_out.old pairs_out.new values_out.old values_out.new }
    {
        let mut at = 0;
        let mut rest = self.values;
        for (n, &[offset, len]) in self.entries().iter().enumerate() {
            let (part, behind) = rest.split_at(len as usize);
            crate::append(part, 0, offset, period, n, at, pairs_out, values_out);
            rest = behind;
            at += period;
        }
    }
}

// The least common multiple of the diagonals' smallest periods: the period that shrinking stores.
// Kept: a public call takes a map's parts one by one, since its callers have no `Map`.
pub fn shrunk_period(
    slots: usize,
    count: usize,
    pairs: &[u32],
    values: &[u64],
) -> Result<usize, Refusal>
    ensures { result ≡ answered (map_refusal slots count pairs.now values.now) (common_period (view count pairs.now values.now)) }
{
    Ok(Map::accept(slots, count, pairs, values)?.common_period())
}

// Stores every diagonal at the least common multiple of their smallest periods, into a second map.
// Kept: C lends a map as slots, a count and two buffers.
pub fn shrink_period(
    slots: usize,
    count: usize,
    pairs: &[u32],
    values: &[u64],
    pairs_out: &mut [u32],
    values_out: &mut [u64],
) -> Result<usize, Refusal>
    ensures { ShrinkWritten slots count pairs.now values.now pairs_out.old pairs_out.new values_out.old values_out.new result }
{
    let map = Map::accept(slots, count, pairs, values)?;
    let period = map.common_period();
    crate::check_room(count, count * period, pairs_out.len(), values_out.len())?;
    map.write_shrunk(period, pairs_out, values_out);
    Ok(count)
}
