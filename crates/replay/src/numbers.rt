// The calls whose words are numbers alone.
use crate::answer::Line;
use crate::words::Words;
use std::alloc::AllocError;

#[derive(Clone, Copy)]
pub(crate) enum NumberCall {
    WrappingMul,
    Residue,
    Gcd,
    PeriodLcm,
    New,
    NormalizeDiagonal,
    BabyMultiple,
    GiantDigit,
}

impl NumberCall {
    pub(crate) fn answer(self, w: &mut Words<'_>, answer: &mut Line) -> Result<(), AllocError> {
        match self {
            NumberCall::WrappingMul => answer.show(ring::wrapping_mul(w.word(), w.word())),
            NumberCall::Residue => answer.show(ring::residue(w.signed(), w.narrow())),
            NumberCall::Gcd => answer.show(ring::gcd(w.narrow(), w.narrow())),
            NumberCall::PeriodLcm => answer.show(ring::period_lcm(w.size(), w.size())),
            NumberCall::New => answer.show(diagonals::new(w.size())),
            NumberCall::NormalizeDiagonal => {
                answer.show(linear_transformation::normalize_linear_transform_diagonal(
                    w.signed(),
                    w.size(),
                ))
            }
            NumberCall::BabyMultiple => {
                answer.show(linear_transformation::baby_multiple(w.signed(), w.size()))
            }
            NumberCall::GiantDigit => answer.show(linear_transformation::giant_digit(
                w.signed(),
                w.size(),
                w.size(),
            )),
        }
    }
}
