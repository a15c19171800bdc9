// The tree over a list of giants, its keys and its switches.
ghost use Rattle.std.specs.Prelude.{◌≡◌, ◌<◌, ◌≤◌, ◌^◌, length, MatchResult, not, false, Some};
ghost use Rattle.std.specs.Int.Signed.{mag};
ghost use Rattle.ring.specs.Lists.{some};
ghost use Rattle.ring.specs.Divisors.{divides};
ghost use Rattle.ring.specs.Residues.{residue_of};
ghost use Rattle.ring.specs.Vectors.{in_front};
ghost use Rattle.ring.specs.Refusals.{first_refusal};
ghost use Rattle.ring.specs.Answers.{answered};
ghost use Rattle.linear_transformation.specs.declared.rotations.BsgsRotations.TheVariants.{PowersOfTwo};
ghost use Rattle.linear_transformation.specs.Trees.{tree_switches};
ghost use Rattle.linear_transformation.specs.Listed.{giant_refusals, list_tree, giant_keys_of, giant_switches_of};
ghost use Rattle.linear_transformation.specs.Calls.{ListWritten, TreeWritten};
ghost use Rattle.linear_transformation.specs.Steps.Trees.{LargestIs, BitsAre, leaves_at, Blank, LeavesMarked, TreeOf, GiantsAccepted};

use crate::babies::count_nonzeros;
use crate::digits::Digit;
use crate::heap::{climb, power};
use crate::records::PairRecord;
use crate::rotations::{BsgsRotations, TreeSizes, check_numbers};
use crate::steps::Steps;
use crate::tree::Tree;
use ring::Refusal;

// Giants that are multiples of a step, modulo slots.
#[derive(Clone, Copy)]
struct GiantList<'a> {
    giants: &'a [i64],
    steps: Steps,
    ghost multiples: { some (λ z. not (divides steps.step (residue_of z steps.slots))) giants.now ≡ false },
}

// n both for n and for -(n + 1): the digit is in the range of b exactly if that is below 2^(b-1).
// Kept: a conversion after `max`; `unsigned_abs` gives n + 1 for -(n + 1).
pub(crate) fn magnitude(digit: Digit) -> u32
    requires { mag digit.0 < 2 ^ 15 }
    ensures { result ≡ mag digit.0 }
{
    digit.0.max(-1 - digit.0) as u32
}

// b of digits whose largest magnitude is x: one more than the bits of x.
pub(crate) fn bits_for(x: u32) -> u32
    requires { x < 2 ^ 15 }
    ensures { BitsAre x result }
{
    33 - x.leading_zeros()
}

impl<'a> GiantList<'a> {
    // Refuses steps outside 1..=65536 and giants that are no multiples of the giant step.
    fn accept(
        baby_step: usize,
        giant_step: usize,
        slots: usize,
        giants: &'a [i64],
    ) -> Result<GiantList<'a>, Refusal>
        ensures { MatchResult result
            (λ list. GiantsAccepted baby_step giant_step slots giants.now list.steps.step list.steps.slots list.giants.now)
            (λ e. first_refusal (giant_refusals (PowersOfTwo baby_step giant_step slots) giants.now) ≡ Some e) }
    {
        check_numbers(baby_step, giant_step, slots)?;
        let steps = Steps {
            step: giant_step as u32,
            slots: slots as u32,
        };
        if !steps.divide(giants) {
            return Err(Refusal::Giant);
        }
        Ok(GiantList { giants, steps })
    }

    // The largest magnitude of the giants' digits.
    // Kept: `Sorted::largest_turn` is its twin over runs of diagonals; Rattle has no `impl Iterator` as a result to give both as one.
    fn largest_digit(&self) -> u32
        ensures { LargestIs self.now.steps.slots self.now.steps.step self.now.giants.now result }
    {
        let mut x = 0;
        for &giant in self.giants {
            x = x.max(magnitude(self.steps.digit_at(giant)));
        }
        x
    }

    // Marks the leaves of the giants.
    // Kept: `Sorted::mark_turns` is its twin over runs of diagonals; Rattle has no `impl Iterator` as a result to give both as one.
    // The table has its full size, since there is no heap memory, and b bounds the nodes that are looked at.
    fn mark_leaves(&self, bits: u32, nodes: &mut [bool; 131072])
        requires bits_bound { bits ≤ 16 }
        requires blank { Blank nodes.old }
        ensures { LeavesMarked bits (leaves_at self.now.steps.slots self.now.steps.step bits self.now.giants.now) nodes.new }
    {
        let size = power(bits) as usize;
        for &giant in self.giants {
            let l = self.steps.leaf_at(giant, bits) as usize;
            nodes[size + l] = true;
        }
    }

    // The leaves of the giants in a tree, one word a giant, in the list's order.
    fn write_leaves(&self, tree: &Tree<'_>, leaves: &mut [u32])
        requires { length self.now.giants.now ≤ length leaves.old }
        ensures { leaves.new ≡ in_front (leaves_at self.now.steps.slots self.now.steps.step tree.now.bits self.now.giants.now) leaves.old }
    {
        for (t, &giant) in self.giants.iter().enumerate() {
            leaves[t] = self.steps.leaf_at(giant, tree.bits);
        }
    }

    // The tree over the giants; its nodes are marked in the table.
    // Kept: `Sorted::plant` takes its giants from runs of an index; an iterator of giants, walked twice, would be no plainer.
    fn plant<'h>(&self, nodes: &'h mut [bool; 131072]) -> Tree<'h>
        requires { Blank nodes.old }
        ensures { TreeOf self.now.steps.slots self.now.steps.step self.now.giants.now result }
    {
        let bits = bits_for(self.largest_digit());
        self.mark_leaves(bits, nodes);
        climb(power(bits) as usize, nodes);
        Tree {
            bits,
            steps: self.steps,
            nodes,
        }
    }

    // The number of pairs of the tree. The table of nodes is this function's own, so that a call without a tree clears none.
    // Not inlined: LLVM then made the table's frame after it had put the list's address into the register that it makes a
    // frame with, and the list was lost.
    // Kept: there is no heap memory, so the nodes stand in a table of fixed size.
    #[inline(never)]
    fn pairs(&self) -> usize
        ensures { result ≡ tree_switches (list_tree self.now.steps.slots self.now.steps.step self.now.giants.now) }
    {
        let mut nodes = [false; 131072];
        self.plant(&mut nodes).size()
    }
}

// The tree over the giants: b, the number of pairs, and in front of the buffers one word a giant (its
// leaf), two a level (its rotation and its number of pairs), and one record a pair. Per rotation there
// is no tree. Refuses with 1 slots and with 3 a step outside 1..=65536, with 10 a giant that is no
// multiple of the step, with 12 too small a buffer. The table of nodes is cleared only where there is a tree.
// Kept: there is no heap memory, so the nodes stand in a table of fixed size.
pub fn giant_tree(
    rotations: BsgsRotations,
    giants: &[i64],
    leaves: &mut [u32],
    levels: &mut [u32],
    records: &mut [PairRecord],
) -> Result<Option<TreeSizes>, Refusal>
    ensures { TreeWritten rotations giants.now leaves.old leaves.new levels.old levels.new records.old records.new result }
{
    let BsgsRotations::PowersOfTwo {
        baby_step,
        giant_step,
        slots,
    } = rotations
    else {
        return Ok(None);
    };
    let list = GiantList::accept(baby_step, giant_step, slots, giants)?;
    let mut nodes = [false; 131072];
    let tree = list.plant(&mut nodes);
    let bits = tree.bits;
    let pairs = tree.size();
    if leaves.len() < giants.len() || levels.len() < 2 * bits as usize || records.len() < pairs {
        return Err(Refusal::Room);
    }
    list.write_leaves(&tree, leaves);
    tree.write_levels(levels);
    tree.write_records(records);
    Ok(Some(TreeSizes { bits, pairs }))
}

// The rotations of the tree's levels that have pairs, in front of out, and their number; none per
// rotation. Refuses as `giant_tree`.
// Kept: there is no heap memory, so the nodes stand in a table of fixed size.
pub fn giant_key_rotations(
    rotations: BsgsRotations,
    giants: &[i64],
    out: &mut [u32],
) -> Result<usize, Refusal>
    ensures { ListWritten (giant_refusals rotations giants.now) (giant_keys_of rotations giants.now) out.old out.new result }
{
    let BsgsRotations::PowersOfTwo {
        baby_step,
        giant_step,
        slots,
    } = rotations
    else {
        return Ok(0);
    };
    let list = GiantList::accept(baby_step, giant_step, slots, giants)?;
    let mut nodes = [false; 131072];
    let tree = list.plant(&mut nodes);
    let count = tree.keys_count();
    if out.len() < count {
        return Err(Refusal::Room);
    }
    tree.write_keys(0, out);
    Ok(count)
}

// The number of giant switches: the pairs of all levels, or per rotation the giants that are not 0.
// Refuses with 1, 3 and 10 as `giant_tree`.
pub fn giant_key_switches(rotations: BsgsRotations, giants: &[i64]) -> Result<usize, Refusal>
    ensures { result ≡ answered (first_refusal (giant_refusals rotations giants.now)) (giant_switches_of rotations giants.now) }
{
    let BsgsRotations::PowersOfTwo {
        baby_step,
        giant_step,
        slots,
    } = rotations
    else {
        return Ok(count_nonzeros(giants));
    };
    let list = GiantList::accept(baby_step, giant_step, slots, giants)?;
    Ok(list.pairs())
}
