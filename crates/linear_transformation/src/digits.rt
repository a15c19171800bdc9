// Baby multiples and giant digits. A digit and a rotation are two types: only `digit` of `Steps` leads from a
// rotation to its digit, and only its `rotation` of a tree's levels back.
ghost use Rattle.std.specs.Prelude.{◌≡◌};
ghost use Rattle.ring.specs.Answers.{answered};
ghost use Rattle.ring.specs.Refusals.{Range};
ghost use Rattle.linear_transformation.specs.Digits.{rot_of, digit};
ghost use Rattle.linear_transformation.specs.Listed.{no_baby, baby_multiple};
ghost use Rattle.linear_transformation.specs.Calls.{baby_refusal, digit_refusal};

use crate::steps::Steps;
use ring::Refusal;

// A rotation, reduced modulo slots.
#[derive(Clone, Copy, Debug, PartialEq, Eq)]
pub struct Rot(pub u32);

// The number of giant steps that a rotation is, negative from half the period on.
#[derive(Clone, Copy, Debug, PartialEq, Eq)]
pub struct Digit(pub i64);

// Whether a baby is negative, above 65,535 or no multiple of the step: the test of refusal 9.
pub(crate) fn is_no_baby(baby: i64, step: usize) -> bool
    requires { Range step }
    ensures { result ≡ no_baby baby step }
{
    !(0..=65535).contains(&baby) || baby as usize % step != 0
}

// k of the baby rotation k·baby_step. Refuses with 3 a step outside 1..=65536, with 9 a baby that is
// negative, above 65,535 or no multiple of the step.
pub fn baby_multiple(baby: i64, baby_step: usize) -> Result<usize, Refusal>
    ensures { result ≡ answered (baby_refusal baby baby_step) (baby_multiple baby baby_step) }
{
    if ring::is_outside(baby_step) {
        return Err(Refusal::OutOfRange);
    }
    if is_no_baby(baby, baby_step) {
        return Err(Refusal::Baby);
    }
    Ok(baby as usize / baby_step)
}

// The digit of a giant rotation. Refuses with 1 slots and with 3 a step outside 1..=65536, with 10 a
// rotation whose residue is no multiple of the step.
pub fn giant_digit(rot: i64, giant_step: usize, slots: usize) -> Result<Digit, Refusal>
    ensures { result ≡ answered (digit_refusal slots giant_step rot) (digit slots giant_step (rot_of slots rot)) }
{
    if ring::is_outside(slots) {
        return Err(Refusal::Slots);
    }
    if ring::is_outside(giant_step) {
        return Err(Refusal::OutOfRange);
    }
    let steps = Steps {
        step: giant_step as u32,
        slots: slots as u32,
    };
    let r = ring::residue(rot, steps.slots);
    if r % steps.step != 0 {
        return Err(Refusal::Giant);
    }
    Ok(steps.digit(Rot(r)))
}
