// The map that a call is lent: its test, and an accepted map with what all calls read of one.
ghost use Rattle.std.specs.Prelude.{◌≡◌, ◌+◌, ◌≤◌, false, true, Some, MatchResult};
ghost use Rattle.std.specs.Bool.{then_some};
ghost use Rattle.ring.specs.Vectors.{tabulate};
ghost use Rattle.ring.specs.Residues.{residue_of};
ghost use Rattle.ring.specs.Refusals.{outside};
ghost use Rattle.diagonals.specs.Maps.{pair_at, start_at, well_formed, view};
ghost use Rattle.diagonals.specs.Calls.{Judged, map_refusal, SameParts};
ghost use Rattle.diagonals.specs.Products.{stretch};

use crate::pairs;
use ring::Refusal;

// The number of values of `count` stored diagonals; None where a pair is missing, a diagonal is not well formed or offsets
// don't rise.
// Most lengths are that of the diagonal before, which divides, so the remainder is seldom taken.
// Kept: the parts of a map one by one, since this test makes the map.
fn formed_total(slots: u32, count: usize, pairs: &[u32], values: &[u64]) -> Option<usize>
    requires { (1 ≤ slots) × (slots ≤ 65536) }
    ensures { result ≡ then_some (well_formed slots count pairs.now values.now) (start_at pairs.now count) }
{
    if !pairs::has_pairs(pairs, count) {
        return None;
    }
    let mut total: usize = 0;
    let mut next: u32 = 0;
    let mut last: u32 = 1;
    for &[offset, len] in pairs::first_pairs(pairs, count) {
        if offset < next || slots <= offset {
            return None;
        }
        if len != last && !crate::is_period(slots, len) {
            return None;
        }
        next = offset + 1;
        last = len;
        total += len as usize;
    }
    (total <= values.len()).then_some(total)
}

// An accepted map. Its parts are those that the call lent; `total` is the number of its values.
#[derive(Clone, Copy, Debug)]
pub struct Map<'p, 'v> {
    pub slots: usize,
    pub count: usize,
    pub pairs: &'p [u32],
    pub values: &'v [u64],
    pub total: usize,
    ghost in_range: { outside slots ≡ false },
    ghost formed: { well_formed slots count pairs.now values.now ≡ true },
    ghost total_is: { total ≡ start_at pairs.now count },
}

impl<'p, 'v> Map<'p, 'v> {
    ghost use Rattle.diagonals.specs.Steps.Reading.{Placed};

    // Refuses with 1 slots out of range, and with 2 a map that isn't well formed.
    pub fn accept(
        slots: usize,
        count: usize,
        pairs: &'p [u32],
        values: &'v [u64],
    ) -> Result<Map<'p, 'v>, Refusal>
        ensures { MatchResult result
            (λ map. SameParts slots count pairs.now values.now map.slots map.count map.pairs.now map.values.now)
            (λ e. map_refusal slots count pairs.now values.now ≡ Some e) }
    {
        if ring::is_outside(slots) {
            return Err(Refusal::Slots);
        }
        let Some(total) = formed_total(slots as u32, count, pairs, values) else {
            return Err(Refusal::NotAMap);
        };
        Ok(Map {
            slots,
            count,
            pairs,
            values,
            total,
        })
    }

    // Offset and stored length of each diagonal.
    pub fn entries(&self) -> &'p [[u32; 2]]
        ensures { result.now ≡ tabulate self.now.count (pair_at self.now.pairs.now) }
    {
        pairs::first_pairs(self.pairs, self.count)
    }

    // The first diagonal whose offset is not below k.
    pub(crate) fn place_of(&self, k: u32) -> usize
        ensures { Placed self.now.count self.now.pairs.now k result }
    {
        self.entries().partition_point(|&[offset, _]| offset < k)
    }

    // How many values the diagonals from the `first` up to the `end` have.
    pub(crate) fn values_between(&self, first: usize, end: usize) -> usize
        requires order { first ≤ end }
        requires inside { end ≤ self.now.count }
        ensures { start_at self.now.pairs.now first + result ≡ start_at self.now.pairs.now end }
    {
        self.entries()[first..end]
            .iter()
            .map(|&[_, len]| len as usize)
            .sum()
    }

    // One period of the diagonal at `index`, a part of values; empty where it is absent.
    pub fn get(&self, index: i64) -> &'v [u64]
        ensures { result.now ≡ stretch (view self.now.count self.now.pairs.now self.now.values.now) (residue_of index self.now.slots) }
    {
        let values = self.values;
        let k = ring::residue(index, self.slots as u32);
        let place = self.place_of(k);
        match self.entries().get(place) {
            Some(&[offset, len]) if offset == k => {
                let start = self.values_between(0, place);
                &values[start..start + len as usize]
            }
            _ => &values[..0],
        }
    }
}

// Refuses with 1 slots out of range, and with 2 a lent map that isn't well formed.
// Kept: C lends a map as slots, a count and two buffers.
pub fn check_map(slots: usize, count: usize, pairs: &[u32], values: &[u64]) -> Result<(), Refusal>
    ensures { Judged slots count pairs.now values.now result }
{
    Map::accept(slots, count, pairs, values)?;
    Ok(())
}
