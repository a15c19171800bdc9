// What is made with a step and slots: digits of rotations, leaves of giants, rotations of digits.
ghost use Rattle.std.specs.Prelude.{◌≡◌, ◌≤◌, ◌<◌, pos, ◌*ℤ◌, not};
ghost use Rattle.std.specs.Int.Signed.{mag};
ghost use Rattle.linear_transformation.specs.Steps.Numbers.{Stepped};

use crate::digits::{Digit, Rot};
use crate::heap::{level_digit, power};

// A giant step, and the slots that it goes round.
#[derive(Clone, Copy)]
pub(crate) struct Steps {
    pub(crate) step: u32,
    pub(crate) slots: u32,
    ghost stepped: { Stepped slots step },
}

impl Steps {
    ghost use Rattle.ring.specs.Lists.{some};
    ghost use Rattle.ring.specs.Divisors.{divides};
    ghost use Rattle.ring.specs.Residues.{residue_of};
    ghost use Rattle.linear_transformation.specs.Digits.{rot_of, digit, level_rotation};
    ghost use Rattle.linear_transformation.specs.Steps.Trees.{Listed, DigitIs, LeafIs};

    // j of the rotation j·step; where the step divides slots, the j of least magnitude, half the period
    // being negative.
    pub(crate) fn digit(&self, rot: Rot) -> Digit
        requires { rot.0 < self.now.slots }
        ensures { result ≡ digit self.now.slots self.now.step rot }
    {
        let step = self.step;
        let slots = self.slots;
        let j = rot.0 / step;
        let period = slots / step;
        if slots % step != 0 || 2 * j < period {
            return Digit(j as i64);
        }
        Digit(j as i64 - period as i64)
    }

    // The digit of a giant.
    pub(crate) fn digit_at(&self, giant: i64) -> Digit
        requires { Listed self.now.slots self.now.step giant }
        ensures { DigitIs self.now.slots self.now.step giant result }
    {
        self.digit(Rot(ring::residue(giant, self.slots)))
    }

    // The leaf of a giant: its digit mod 2^bits.
    // Kept: b goes by alone here and where leaves are marked, since a tree, which has it, is made only when they are.
    pub(crate) fn leaf_at(&self, giant: i64, bits: u32) -> u32
        requires listed { Listed self.now.slots self.now.step giant }
        requires bits_bound { bits ≤ 16 }
        ensures { LeafIs self.now.slots self.now.step bits giant result }
    {
        ring::residue(self.digit_at(giant).0, power(bits))
    }

    // The rotation of a level's digit: the only way from a digit to a rotation.
    fn rotation(&self, digit: Digit) -> Rot
        requires { mag digit.0 ≤ 65536 }
        ensures { result ≡ rot_of self.now.slots (digit.0 *ℤ pos self.now.step) }
    {
        Rot(ring::residue(digit.0 * self.step as i64, self.slots))
    }

    // The rotation of level i of a tree with b = `bits`.
    pub(crate) fn level_rotation(&self, bits: u32, i: u32) -> Rot
        requires { (bits ≤ 16) × (i < bits) }
        ensures { result ≡ level_rotation self.now.slots self.now.step bits i }
    {
        self.rotation(level_digit(bits, i))
    }

    // Whether every giant is a multiple of the step, modulo slots.
    pub(crate) fn divide(&self, giants: &[i64]) -> bool
        ensures { result ≡ not (some (λ z. not (divides self.now.step (residue_of z self.now.slots))) giants.now) }
    {
        giants.iter().all(|&giant| ring::residue(giant, self.slots).is_multiple_of(self.step))
    }
}
