// A rule on matrices.
ghost use Rattle.std.specs.Prelude.{◌≡◌, ◌^◌, ◌≤◌};
ghost use Rattle.maps.specs.Readings.{made_shift};

use crate::rules::Rule;
use crate::side::Side;

// A rule on matrices of a side, and the shift that it makes.
#[derive(Clone, Copy)]
pub(crate) struct Reads {
    pub(crate) rule: Rule,
    pub(crate) side: Side,
    pub(crate) shift: usize,
    ghost shift_is: { shift ≡ made_shift rule (2 ^ side.log_d) },
    ghost shift_low: { shift ≤ 2 ^ side.log_d },
}
