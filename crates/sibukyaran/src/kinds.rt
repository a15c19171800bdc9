// Strategies and rotations as C's numbers. A kind that there is not has no width and no steps, and is
// refused for that.
ghost use Rattle.std.specs.Prelude.{◌≡◌};
ghost use Rattle.sibukyaran.specs.Kinds.{strategy_of, rotations_of};

use linear_transformation::{BsgsRotations, LinearTransformationStrategy};

// Kept: C gives a strategy as two words, kind and width, so that there is no one value for a `From` to take.
pub(crate) fn strategy_of(kind: u32, giant_step: usize) -> LinearTransformationStrategy
    ensures { result ≡ strategy_of kind giant_step }
{
    match kind {
        0 => LinearTransformationStrategy::Bsgs { giant_step },
        1 => LinearTransformationStrategy::BsgsPowersOfTwo { giant_step },
        2 => LinearTransformationStrategy::Direct,
        _ => LinearTransformationStrategy::Bsgs { giant_step: 0 },
    }
}

// Kept: C gives rotations as four words, so that there is no one value for a `From` to take.
pub(crate) fn rotations_of(
    kind: u32,
    baby_step: usize,
    giant_step: usize,
    slots: usize,
) -> BsgsRotations
    ensures { result ≡ rotations_of kind baby_step giant_step slots }
{
    match kind {
        0 => BsgsRotations::PerRotation,
        1 => BsgsRotations::PowersOfTwo {
            baby_step,
            giant_step,
            slots,
        },
        _ => BsgsRotations::PowersOfTwo {
            baby_step: 0,
            giant_step: 0,
            slots,
        },
    }
}
