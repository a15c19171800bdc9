// The calls of the sample, each at its code (docs/SAMPLE.md).
use crate::answer::Line;
use crate::files::FileCall;
use crate::lists::ListCall;
use crate::matrices::{MapOfMatrices, MatrixCall};
use crate::numbers::NumberCall;
use crate::plans::PlanCall;
use crate::rotations::{self, RotationsCall};
use crate::stored::MapCall;
use crate::words::Words;
use std::alloc::AllocError;

#[derive(Clone, Copy)]
pub(crate) enum Call {
    Numbers(NumberCall),
    Lists(ListCall),
    Stored(MapCall),
    Plans(PlanCall),
    Rotations(RotationsCall),
    Matrices(MatrixCall),
    Keyed,
    Files(FileCall),
}

// A code that no call has.
#[derive(Clone, Copy, Debug, PartialEq, Eq)]
pub(crate) struct UnknownCode(pub(crate) u64);

// From code 1 on.
const CALLS: [Call; 43] = [
    Call::Numbers(NumberCall::WrappingMul),
    Call::Numbers(NumberCall::Residue),
    Call::Numbers(NumberCall::Gcd),
    Call::Numbers(NumberCall::PeriodLcm),
    Call::Lists(ListCall::MinPeriod),
    Call::Lists(ListCall::MultiplyAddInto),
    Call::Stored(MapCall::Get),
    Call::Stored(MapCall::Set),
    Call::Lists(ListCall::FromSlotMap),
    Call::Lists(ListCall::RotateSlotsInto),
    Call::Stored(MapCall::ShrinkPeriod),
    Call::Stored(MapCall::Transpose),
    Call::Stored(MapCall::Evaluate),
    Call::Stored(MapCall::Indexes),
    Call::Stored(MapCall::IsEmpty),
    Call::Numbers(NumberCall::New),
    Call::Numbers(NumberCall::NormalizeDiagonal),
    Call::Numbers(NumberCall::BabyMultiple),
    Call::Numbers(NumberCall::GiantDigit),
    Call::Plans(PlanCall::Index),
    Call::Plans(PlanCall::BabySteps),
    Call::Plans(PlanCall::KeyRotations),
    Call::Plans(PlanCall::KeySwitches),
    Call::Plans(PlanCall::BabyStep),
    Call::Plans(PlanCall::OptimalGiantStep),
    Call::Rotations(RotationsCall::List(rotations::ListCall::BabyClosure)),
    Call::Rotations(RotationsCall::List(rotations::ListCall::BabyKeys)),
    Call::Rotations(RotationsCall::List(rotations::ListCall::GiantKeys)),
    Call::Rotations(RotationsCall::GiantSwitches),
    Call::Rotations(RotationsCall::BabyPasses),
    Call::Rotations(RotationsCall::GiantTree),
    Call::Matrices(MatrixCall::Map(MapOfMatrices::Rule)),
    Call::Matrices(MatrixCall::Map(MapOfMatrices::Tiled)),
    Call::Matrices(MatrixCall::Map(MapOfMatrices::RotateRowsRep)),
    Call::Matrices(MatrixCall::Map(MapOfMatrices::Product)),
    Call::Matrices(MatrixCall::Map(MapOfMatrices::LeftMulRep)),
    Call::Matrices(MatrixCall::Values),
    Call::Matrices(MatrixCall::Map(MapOfMatrices::SlotProduct)),
    Call::Keyed,
    Call::Stored(MapCall::FileSize),
    Call::Stored(MapCall::WriteFile),
    Call::Files(FileCall::Room),
    Call::Files(FileCall::Read),
];

impl TryFrom<u64> for Call {
    type Error = UnknownCode;

    fn try_from(code: u64) -> Result<Self, UnknownCode> {
        CALLS
            .get(code.wrapping_sub(1) as usize)
            .copied()
            .ok_or(UnknownCode(code))
    }
}

impl Call {
    pub(crate) fn answer(self, words: &mut Words<'_>, answer: &mut Line) -> Result<(), AllocError> {
        match self {
            Call::Numbers(call) => call.answer(words, answer),
            Call::Lists(call) => call.answer(words, answer),
            Call::Stored(call) => call.answer(words, answer),
            Call::Plans(call) => call.answer(words, answer),
            Call::Rotations(call) => call.answer(words, answer),
            Call::Matrices(call) => call.answer(words, answer),
            Call::Keyed => crate::keyed::answer(words, answer),
            Call::Files(call) => call.answer(words, answer),
        }
    }
}
