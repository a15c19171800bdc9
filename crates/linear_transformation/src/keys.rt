// What a strategy makes of a list of diagonals besides the plan: baby step, babies, keys and switches.
ghost use Rattle.std.specs.Prelude.{◌≡◌, [], true, false, ◌+◌, ◌≤◌};
ghost use Rattle.ring.specs.Answers.{answered};
ghost use Rattle.ring.specs.Refusals.{first_refusal};
ghost use Rattle.ring.specs.Residues.{diagonals_of};
ghost use Rattle.linear_transformation.specs.declared.LinearTransformationStrategy.TheVariants.{BsgsPowersOfTwo};
ghost use Rattle.linear_transformation.specs.Plans.{width_of, giants};
ghost use Rattle.linear_transformation.specs.Closures.{nonzeros};
ghost use Rattle.linear_transformation.specs.Schedules.{baby_step, plan_babies, plan_keys, plan_switches};
ghost use Rattle.linear_transformation.specs.Calls.{ListWritten, plan_refusals};
ghost use Rattle.linear_transformation.specs.Steps.Strategies.{turns_each};
ghost use Rattle.linear_transformation.specs.Steps.Trees.{LargestIs, leaves_at, Blank, LeavesMarked, TreeOf};
ghost use Rattle.linear_transformation.specs.Steps.Keys.{giants_of, Switches, BabySwitches};

use crate::LinearTransformationStrategy;
use crate::giants::{bits_for, magnitude};
use crate::heap::{climb, power};
use crate::multiples::{Multiples, count_tops};
use crate::plan::{check_plan, run_end};
use crate::sorted::Sorted;
use crate::steps::Steps;
use crate::tree::Tree;
use ring::Refusal;

// The greatest common divisor of the plan's babies, or 1 where that is 0. Refuses with 1 slots and with
// 3 a width outside 1..=65536.
// Kept: there is no heap memory, so the sorted diagonals stand in an array on the stack, as long as they can be.
pub fn baby_step(indexes: &[i64], slots: usize, giant_step: usize) -> Result<usize, Refusal>
    ensures { result ≡ answered (first_refusal (plan_refusals slots (BsgsPowersOfTwo giant_step))) (baby_step slots giant_step (diagonals_of slots indexes.now)) }
{
    let strategy = LinearTransformationStrategy::BsgsPowersOfTwo { giant_step };
    check_plan(slots, strategy)?;
    let mut list = [0u32; 65536];
    let sorted = Sorted::sort(indexes, slots, strategy, &mut list);
    Ok(sorted.baby_step() as usize)
}

impl<'a> Sorted<'a> {
    // The diagonals whose giants are not 0: those from the width on.
    pub(crate) fn turned(&self) -> Sorted<'a>
        ensures { giants 65536 (width_of result.strategy) result.ds.now ≡ nonzeros (giants 65536 (width_of self.now.strategy) self.now.ds.now) }
    {
        let start = run_end(self.ds, 0, self.width());
        Sorted {
            ds: &self.ds[start..],
            slots: self.slots,
            strategy: self.strategy,
        }
    }

    // The width as a giant step, and the slots.
    fn steps(&self) -> Steps
        ensures { (result.step ≡ width_of self.now.strategy) × (result.slots ≡ self.now.slots) }
    {
        Steps {
            step: self.width(),
            slots: self.slots,
        }
    }

    // The largest magnitude of the digits of the plan's giants.
    // Kept: `GiantList::largest_digit` is its twin over listed giants; Rattle has no `impl Iterator` as a result to give both as one.
    fn largest_turn(&self) -> u32
        ensures { LargestIs self.now.slots (width_of self.now.strategy) (giants_of (width_of self.now.strategy) self.now.ds.now) result }
    {
        let steps = self.steps();
        let mut x = 0;
        for run in self.runs() {
            x = x.max(magnitude(steps.digit_at(run.giant as i64)));
        }
        x
    }

    // Marks the leaves of the plan's giants.
    // Kept: `GiantList::mark_leaves` is its twin over listed giants; Rattle has no `impl Iterator` as a result to give both as one.
    // The table has its full size, since there is no heap memory, and b bounds the nodes that are looked at.
    fn mark_turns(&self, bits: u32, nodes: &mut [bool; 131072])
        requires bits_bound { bits ≤ 16 }
        requires blank { Blank nodes.old }
        ensures { LeavesMarked bits (leaves_at self.now.slots (width_of self.now.strategy) bits (giants_of (width_of self.now.strategy) self.now.ds.now)) nodes.new }
    {
        let steps = self.steps();
        let size = power(bits) as usize;
        for run in self.runs() {
            let l = steps.leaf_at(run.giant as i64, bits) as usize;
            nodes[size + l] = true;
        }
    }

    // The tree over the plan's giants; its nodes are marked in the table.
    // Kept: `GiantList::plant` is as long, and takes giants that are lent; here they are read off the sorted list, with no list of their own.
    pub(crate) fn plant<'h>(&self, nodes: &'h mut [bool; 131072]) -> Tree<'h>
        requires { Blank nodes.old }
        ensures { TreeOf self.now.slots (width_of self.now.strategy) (giants_of (width_of self.now.strategy) self.now.ds.now) result }
    {
        let bits = bits_for(self.largest_turn());
        self.mark_turns(bits, nodes);
        climb(power(bits) as usize, nodes);
        Tree {
            bits,
            steps: self.steps(),
            nodes,
        }
    }

    // The plan's babies, in front of out.
    // Kept: there is no heap memory, so the table of marks is an array on the stack, one mark for each number that can be set.
    fn write_babies(&self, out: &mut [u32]) -> Result<usize, Refusal>
        ensures { ListWritten [] (plan_babies self.now.slots self.now.strategy self.now.ds.now) out.old out.new result }
    {
        let mut seen = [false; 65536];
        let marked = self.mark(&mut seen);
        let count = marked.count();
        if out.len() < count {
            return Err(Refusal::Room);
        }
        marked.write(out);
        Ok(count)
    }

    // The giant switches with powers of two: the pairs of all levels.
    // Kept: there is no heap memory, so the nodes of the tree are marks in an array on the stack.
    // Kept: `turns_each` is asked of a `Sorted`, which serves both kinds of strategy: a type for each kind would double what both share.
    fn count_pairs(&self) -> usize
        requires { turns_each self.now.strategy ≡ false }
        ensures { Switches self.now.slots self.now.strategy self.now.ds.now result }
    {
        let mut nodes = [false; 131072];
        self.plant(&mut nodes).size()
    }

    fn giant_switches(&self) -> usize
        ensures { Switches self.now.slots self.now.strategy self.now.ds.now result }
    {
        if self.strategy.turns_each() {
            return self.turned().count_giants();
        }
        self.count_pairs()
    }

    // How many babies are not 0.
    // Kept: there is no heap memory, so the table of marks is an array on the stack, one mark for each number that can be set.
    pub(crate) fn baby_switches(&self) -> usize
        ensures { BabySwitches self.now.slots self.now.strategy self.now.ds.now result }
    {
        let mut seen = [false; 65536];
        self.mark(&mut seen).count() - 1
    }

    // The keys where each rotation has its own: the nonzero babies, then the nonzero giants.
    // Kept: there is no heap memory, so the table of marks is an array on the stack, one mark for each number that can be set.
    // Kept: `turns_each` is asked of a `Sorted`, which serves both kinds of strategy: a type for each kind would double what both share.
    fn own_keys(&self, out: &mut [u32]) -> Result<usize, Refusal>
        requires { turns_each self.now.strategy ≡ true }
        ensures { ListWritten [] (plan_keys self.now.slots self.now.strategy self.now.ds.now) out.old out.new result }
    {
        let mut seen = [false; 65536];
        self.mark_babies(1, &mut seen);
        seen[0] = false;
        let babies = Multiples {
            seen: &seen,
            end: self.multiples_end(1),
            step: 1,
        };
        let giants = self.turned();
        let count = babies.count();
        let turns = giants.count_giants();
        if out.len() < count + turns {
            return Err(Refusal::Room);
        }
        babies.write(out);
        giants.write_giants(out, count);
        Ok(count + turns)
    }

    // The keys with powers of two: the rotations of the passes, then those of the levels that have pairs.
    // Kept: there is no heap memory, so the table of marks is an array on the stack, one mark for each number that can be set.
    // Kept: `turns_each` is asked of a `Sorted`, which serves both kinds of strategy: a type for each kind would double what both share.
    pub(crate) fn power_keys(&self, tree: &Tree<'_>, out: &mut [u32]) -> Result<usize, Refusal>
        requires powers { turns_each self.now.strategy ≡ false }
        requires planted { TreeOf self.now.slots (width_of self.now.strategy) (giants_of (width_of self.now.strategy) self.now.ds.now) tree.now }
        ensures { ListWritten [] (plan_keys self.now.slots self.now.strategy self.now.ds.now) out.old out.new result }
    {
        let mut seen = [false; 65536];
        let closed = self.mark_closure(&mut seen);
        let passes = count_tops(&closed);
        let levels = tree.keys_count();
        if out.len() < passes + levels {
            return Err(Refusal::Room);
        }
        closed.write_tops(out);
        tree.write_keys(passes, out);
        Ok(passes + levels)
    }

    // The same, where no tree is planted yet.
    // Kept: there is no heap memory, so the nodes of the tree are marks in an array on the stack.
    // Kept: `turns_each` is asked of a `Sorted`, which serves both kinds of strategy: a type for each kind would double what both share.
    fn keys_planted(&self, out: &mut [u32]) -> Result<usize, Refusal>
        requires { turns_each self.now.strategy ≡ false }
        ensures { ListWritten [] (plan_keys self.now.slots self.now.strategy self.now.ds.now) out.old out.new result }
    {
        let mut nodes = [false; 131072];
        self.power_keys(&self.plant(&mut nodes), out)
    }

    // The keys of the plan, in front of out.
    // Kept: one call for each of the two kinds of strategy; a function that took the calls as closures would lend `out` to both.
    fn keys(&self, out: &mut [u32]) -> Result<usize, Refusal>
        ensures { ListWritten [] (plan_keys self.now.slots self.now.strategy self.now.ds.now) out.old out.new result }
    {
        if self.strategy.turns_each() {
            return self.own_keys(out);
        }
        self.keys_planted(out)
    }
}

// The plan's babies, in front of out. Refuses with 1 slots and with 3 a width outside 1..=65536, with
// 12 too short a buffer.
// Kept: there is no heap memory, so the sorted diagonals stand in an array on the stack, as long as they can be.
pub fn baby_steps(
    indexes: &[i64],
    slots: usize,
    strategy: LinearTransformationStrategy,
    out: &mut [u32],
) -> Result<usize, Refusal>
    ensures { ListWritten (plan_refusals slots strategy) (plan_babies slots strategy (diagonals_of slots indexes.now)) out.old out.new result }
{
    check_plan(slots, strategy)?;
    Sorted::sort(indexes, slots, strategy, &mut [0u32; 65536]).write_babies(out)
}

// The number of key switches of the plan: a switch for each baby that is not 0, and for each giant that
// is not 0 or, with powers of two, for each pair of the tree. Refuses with 1 and 3 as `baby_steps`.
// Kept: there is no heap memory, so the sorted diagonals stand in an array on the stack, as long as they can be.
pub fn plan_key_switches(
    indexes: &[i64],
    slots: usize,
    strategy: LinearTransformationStrategy,
) -> Result<usize, Refusal>
    ensures { result ≡ answered (first_refusal (plan_refusals slots strategy)) (plan_switches slots strategy (diagonals_of slots indexes.now)) }
{
    check_plan(slots, strategy)?;
    let mut list = [0u32; 65536];
    let sorted = Sorted::sort(indexes, slots, strategy, &mut list);
    Ok(sorted.baby_switches() + sorted.giant_switches())
}

// The rotations that the plan asks keys for, in front of out. Refuses with 1, 3 and 12 as `baby_steps`.
// Kept: there is no heap memory, so the sorted diagonals stand in an array on the stack, as long as they can be.
pub fn plan_key_rotations(
    indexes: &[i64],
    slots: usize,
    strategy: LinearTransformationStrategy,
    out: &mut [u32],
) -> Result<usize, Refusal>
    ensures { ListWritten (plan_refusals slots strategy) (plan_keys slots strategy (diagonals_of slots indexes.now)) out.old out.new result }
{
    check_plan(slots, strategy)?;
    Sorted::sort(indexes, slots, strategy, &mut [0u32; 65536]).keys(out)
}
