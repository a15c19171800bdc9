// Plans of stored maps: their offsets rise and are below slots, so nothing is sorted and nothing copied.
ghost use Rattle.std.specs.Prelude.{◌≡◌, true, false, ◌<◌, take, drop, MatchResult, Some};
ghost use Rattle.ring.specs.Refusals.{first_refusal};
ghost use Rattle.linear_transformation.specs.Stored.{offsets_rise, stored_refusals, needs_refusal, plan_needs, StoredPlanWritten, PlanRecordsWritten};
ghost use Rattle.linear_transformation.specs.Steps.Strategies.{turns_each};
ghost use Rattle.linear_transformation.specs.Steps.Plans.{DiagonalsAccepted};
ghost use Rattle.linear_transformation.specs.Steps.Stored.{keys_refusal};

use crate::LinearTransformationStrategy;
use crate::held::Held;
use crate::plan::PlanSizes;
use crate::records::PairRecord;
use crate::rotations::TreeSizes;
use crate::sorted::Sorted;
use ring::Refusal;

// The numbers of babies, giants, pairs and switches, the baby step and b of the tree (0 per rotation).
#[derive(Clone, Copy, Debug, PartialEq, Eq)]
pub struct Needs {
    pub babies: usize,
    pub giants: usize,
    pub pairs: usize,
    pub switches: usize,
    pub step: u32,
    pub bits: u32,
}

impl<'a> Sorted<'a> {
    // The offsets of a stored map. Refuses slots and widths outside 1..=65536, and offsets that are no map's.
    // Kept: a struct of offsets, slots and strategy would be made at each call only to be taken apart here.
    fn accept(
        offsets: &'a [u32],
        slots: usize,
        strategy: LinearTransformationStrategy,
    ) -> Result<Sorted<'a>, Refusal>
        ensures { MatchResult result
            (λ sorted. DiagonalsAccepted (stored_refusals slots strategy offsets.now) slots strategy offsets.now sorted.slots sorted.strategy sorted.ds.now)
            (λ e. first_refusal (stored_refusals slots strategy offsets.now) ≡ Some e) }
    {
        if ring::is_outside(slots) {
            return Err(Refusal::Slots);
        }
        if !are_rising(offsets, slots) {
            return Err(Refusal::NotAMap);
        }
        if crate::is_width_outside(strategy) {
            return Err(Refusal::OutOfRange);
        }
        Ok(Sorted {
            ds: offsets,
            slots: slots as u32,
            strategy,
        })
    }

    // What a run needs where each rotation has its own key. Rotation 0 is always one of the babies and asks for no switch.
    // Kept: there is no heap memory, so the table of marks is an array on the stack, one mark for each number that can be set.
    // Kept: `turns_each` is asked of a `Sorted`, which serves both kinds of strategy: a type for each kind would double what both share.
    fn turn_needs(&self, held: &[u64]) -> Result<Needs, Refusal>
        requires { turns_each self.now.strategy ≡ true }
        ensures { result ≡ plan_needs (keys_refusal self.now.slots self.now.strategy self.now.ds.now held.now) self.now.slots self.now.strategy self.now.ds.now }
    {
        let mut seen = [false; 65536];
        if Held::of(held, &mut seen).lacks_turn(self) {
            return Err(Refusal::Key);
        }
        let made = self.baby_switches();
        Ok(Needs {
            babies: made + 1,
            giants: self.count_giants(),
            pairs: 0,
            switches: made + self.turned().count_giants(),
            step: 0,
            bits: 0,
        })
    }

    // The same with powers of two. The tree is planted once, for the keys and for the pairs.
    // Kept: there is no heap memory, so the table of marks is an array on the stack, one mark for each number that can be set.
    // Kept: `turns_each` is asked of a `Sorted`, which serves both kinds of strategy: a type for each kind would double what both share.
    fn power_needs(&self, held: &[u64]) -> Result<Needs, Refusal>
        requires { turns_each self.now.strategy ≡ false }
        ensures { result ≡ plan_needs (keys_refusal self.now.slots self.now.strategy self.now.ds.now held.now) self.now.slots self.now.strategy self.now.ds.now }
    {
        let mut seen = [false; 65536];
        let mut nodes = [false; 131072];
        let tree = self.plant(&mut nodes);
        if Held::of(held, &mut seen).lacks_power(self, &tree) {
            return Err(Refusal::Key);
        }
        let made = self.baby_switches();
        let pairs = tree.size();
        Ok(Needs {
            babies: made + 1,
            giants: self.count_giants(),
            pairs,
            switches: made + pairs,
            step: self.baby_step(),
            bits: tree.bits,
        })
    }
}

// Whether every offset is above the one before it, and below slots. The first that is not is the last that is looked at.
fn are_rising(offsets: &[u32], slots: usize) -> bool
    ensures { result ≡ offsets_rise slots offsets.now }
{
    let Some(&first) = offsets.first() else {
        return true;
    };
    (first as usize) < slots && offsets.is_sorted_by(|&a, &b| a < b && (b as usize) < slots)
}

// Writes the plan of a stored map's offsets in front of `plan`, as `linear_transform_index` does.
// Refuses with 1 slots and with 3 a width outside 1..=65536, with 2 offsets that do not rise below
// slots, with 12 a plan that is too short.
// Kept: what a public function takes stays as it is: offsets, slots and a strategy that nothing has tested yet.
pub fn stored_plan(
    offsets: &[u32],
    slots: usize,
    strategy: LinearTransformationStrategy,
    plan: &mut [u32],
) -> Result<PlanSizes, Refusal>
    ensures { StoredPlanWritten slots strategy offsets.now plan.old plan.new result }
{
    Sorted::accept(offsets, slots, strategy)?.plan(plan)
}

// `count` words from `from` on, or as many as there are.
fn part(words: &[u32], from: usize, count: usize) -> &[u32]
    ensures { result.now ≡ take count (drop from words.now) }
{
    let rest = &words[from.min(words.len())..];
    &rest[..count.min(rest.len())]
}

// The pair records of the tree over the giants of a plan, `count` words from `from` on, one a pair, in
// front of the slice; b and the number of pairs. Per rotation there is no tree. Refuses as
// `stored_plan`, with 12 too few records.
// Kept: there is no heap memory, so the nodes of the tree are marks in an array on the stack.
pub fn plan_records(
    strategy: LinearTransformationStrategy,
    slots: usize,
    plan: &[u32],
    from: usize,
    count: usize,
    records: &mut [PairRecord],
) -> Result<Option<TreeSizes>, Refusal>
    ensures { PlanRecordsWritten slots strategy (take count (drop from plan.now)) records.old records.new result }
{
    if strategy.turns_each() {
        return Ok(None);
    }
    let giants = Sorted::accept(part(plan, from, count), slots, strategy)?;
    let mut nodes = [false; 131072];
    let tree = giants.plant(&mut nodes);
    let pairs = tree.size();
    if records.len() < pairs {
        return Err(Refusal::Room);
    }
    tree.write_records(records);
    Ok(Some(TreeSizes {
        bits: tree.bits,
        pairs,
    }))
}

// What a run by a plan of stored offsets needs: babies, giants, pairs, switches, the baby step and b.
// Refuses with 1, 2 and 3 as `stored_plan`, with 11 where a key of the plan is not held.
// Kept: what a public function takes stays as it is: offsets, slots and a strategy that nothing has tested yet.
pub fn plan_needs(
    offsets: &[u32],
    slots: usize,
    strategy: LinearTransformationStrategy,
    held: &[u64],
) -> Result<Needs, Refusal>
    ensures { result ≡ plan_needs (needs_refusal slots strategy offsets.now held.now) slots strategy offsets.now }
{
    let sorted = Sorted::accept(offsets, slots, strategy)?;
    if strategy.turns_each() {
        return sorted.turn_needs(held);
    }
    sorted.power_needs(held)
}
