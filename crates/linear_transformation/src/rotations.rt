// How a run reaches its rotations, and what the calls about lists of babies and giants count.
ghost use Rattle.std.specs.Prelude.{◌≡◌};
ghost use Rattle.linear_transformation.specs.Listed.{baby_step_of};
ghost use Rattle.linear_transformation.specs.Steps.Numbers.{StepsJudged};
ghost use Rattle.linear_transformation.specs.declared.rotations.BsgsRotations.TheVariants.{PowersOfTwo};

use ring::Refusal;

// One key for each rotation, or the keys of the power-of-two multiples of the two steps.
#[derive(Clone, Copy, Debug, PartialEq, Eq)]
pub enum BsgsRotations {
    PerRotation,
    PowersOfTwo {
        baby_step: usize,
        giant_step: usize,
        slots: usize,
    },
}

impl BsgsRotations {
    // The step that a listed baby is a multiple of.
    pub(crate) fn baby_step(self) -> usize
        ensures { result ≡ baby_step_of self }
    {
        match self {
            BsgsRotations::PerRotation => 1,
            BsgsRotations::PowersOfTwo { baby_step, .. } => baby_step,
        }
    }
}

// The numbers of passes and moves.
#[derive(Clone, Copy, Debug, PartialEq, Eq)]
pub struct PassSizes {
    pub passes: u32,
    pub moves: usize,
}

// b of a tree and the number of pairs of all its levels.
#[derive(Clone, Copy, Debug, PartialEq, Eq)]
pub struct TreeSizes {
    pub bits: u32,
    pub pairs: usize,
}

pub(crate) fn check_numbers(
    baby_step: usize,
    giant_step: usize,
    slots: usize,
) -> Result<(), Refusal>
    ensures { StepsJudged (PowersOfTwo baby_step giant_step slots) result }
{
    if ring::is_outside(slots) {
        return Err(Refusal::Slots);
    }
    if ring::is_outside(baby_step) || ring::is_outside(giant_step) {
        return Err(Refusal::OutOfRange);
    }
    Ok(())
}

// Refuses slots and steps outside 1..=65536.
pub(crate) fn check_steps(rotations: BsgsRotations) -> Result<(), Refusal>
    ensures { StepsJudged rotations result }
{
    match rotations {
        BsgsRotations::PerRotation => Ok(()),
        BsgsRotations::PowersOfTwo {
            baby_step,
            giant_step,
            slots,
        } => check_numbers(baby_step, giant_step, slots),
    }
}
