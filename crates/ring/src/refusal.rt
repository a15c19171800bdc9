// Why a call is refused.
ghost use Rattle.std.specs.Prelude.{◌≡◌};
ghost use Rattle.ring.specs.Refusals.{number_of};

// The refusals of document 01 and, from 13 on, of document 02, each at its number.
#[derive(Clone, Copy, Debug, PartialEq, Eq)]
pub enum Refusal {
    // Slots is below 1 or above 65,536.
    Slots = 1,
    // A lent map isn't well formed.
    NotAMap = 2,
    // A width, a step, an argument of `period_lcm`, or a length given to `min_period` or as a rotation's source is below
    // 1 or above 65,536.
    OutOfRange = 3,
    // A period or a values list's length is 0 or doesn't divide slots.
    Period = 4,
    // log_d is above 8, count is 0, or the matrices don't divide slots (as skewed values: exceed 65,536).
    Matrices = 5,
    // A matrix map's shift is beyond its limit.
    Shift = 6,
    // An input, a public matrix, a list of terms or a rotation's output has not the length that the call asks.
    Length = 7,
    // A term lies outside the map.
    Term = 8,
    // A listed baby is negative, too large or no multiple of the baby step.
    Baby = 9,
    // A listed giant is no multiple of the giant step.
    Giant = 10,
    // A key rotation of the plan isn't held.
    Key = 11,
    // A lent output is shorter than its whole result.
    Room = 12,
    // Bytes are no map file.
    File = 13,
}

impl Refusal {
    // The document's number.
    pub fn number(self) -> u32
        ensures { result ≡ number_of self }
    {
        self as u32
    }
}
