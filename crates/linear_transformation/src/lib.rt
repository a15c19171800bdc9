// Strategies of a linear transformation: plans, their babies, keys and switches; baby multiples and giant
// digits; closure, passes, trees and keys of lists of babies and giants; and the best width (poulpy's
// linear_transformation.rs). Refusals are those of document 01.
#![tactic(auto)]

mod babies;
mod digits;
mod giants;
mod heap;
mod held;
mod keys;
mod marks;
mod multiples;
mod plan;
mod records;
mod rotations;
mod sorted;
mod sorting;
mod steps;
mod stored;
mod tree;
mod widths;

ghost use Rattle.std.specs.Prelude.{◌≡◌, false};
ghost use Rattle.ring.specs.Residues.{residue_of};
ghost use Rattle.ring.specs.Answers.{answered};
ghost use Rattle.linear_transformation.specs.Strategies.{width_outside};
ghost use Rattle.linear_transformation.specs.Plans.{width_of};
ghost use Rattle.linear_transformation.specs.Calls.{normalize_refusal};
ghost use Rattle.linear_transformation.specs.Steps.Strategies.{turns_each};

pub use babies::{baby_closure, baby_key_rotations, baby_passes};
pub use digits::{Digit, Rot, baby_multiple, giant_digit};
pub use giants::{giant_key_rotations, giant_key_switches, giant_tree};
pub use heap::tree_rotation;
pub use keys::{baby_step, baby_steps, plan_key_rotations, plan_key_switches};
pub use plan::{PlanSizes, linear_transform_index, linear_transformation_plan};
pub use records::PairRecord;
use ring::Refusal;
pub use rotations::{BsgsRotations, PassSizes, TreeSizes};
pub use stored::{Needs, plan_needs, plan_records, stored_plan};
pub use widths::optimal_bsgs_giant_step;

#[derive(Clone, Copy, Debug, PartialEq, Eq)]
pub enum LinearTransformationStrategy {
    Bsgs { giant_step: usize },
    BsgsPowersOfTwo { giant_step: usize },
    Direct,
}

impl LinearTransformationStrategy {
    // The giant step; 1 without one.
    pub(crate) fn width(self) -> usize
        ensures { result ≡ width_of self }
    {
        match self {
            LinearTransformationStrategy::Bsgs { giant_step } => giant_step,
            LinearTransformationStrategy::BsgsPowersOfTwo { giant_step } => giant_step,
            LinearTransformationStrategy::Direct => 1,
        }
    }

    // Whether each rotation has its own key.
    pub(crate) fn turns_each(self) -> bool
        ensures { result ≡ turns_each self }
    {
        !matches!(self, LinearTransformationStrategy::BsgsPowersOfTwo { .. })
    }

    // The width of an accepted strategy, which a word holds.
    pub(crate) fn word_width(self) -> u32
        requires { width_outside self ≡ false }
        ensures { result ≡ width_of self }
    {
        self.width() as u32
    }
}

// The width of a strategy. `Direct` has width 1.
pub fn width_of(strategy: LinearTransformationStrategy) -> usize
    ensures { result ≡ width_of strategy }
{
    strategy.width()
}

// Whether the strategy's width is below 1 or above 65,536: the test of refusal 3.
pub fn is_width_outside(strategy: LinearTransformationStrategy) -> bool
    ensures { result ≡ width_outside strategy }
{
    ring::is_outside(strategy.width())
}

// The least non-negative residue of a diagonal index. Refuses with 1 slots outside 1..=65536.
pub fn normalize_linear_transform_diagonal(diagonal: i64, slots: usize) -> Result<usize, Refusal>
    ensures { result ≡ answered (normalize_refusal slots) (residue_of diagonal slots) }
{
    if ring::is_outside(slots) {
        return Err(Refusal::Slots);
    }
    Ok(ring::residue(diagonal, slots as u32) as usize)
}
