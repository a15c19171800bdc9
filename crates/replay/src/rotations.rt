// The calls of lists of babies and giants: rotations (kind, baby step, giant step, slots), the lengths
// of what is written, the list. What a call writes holds sevens before, and records odd 7 with an even.
use crate::answer::Line;
use crate::words::Words;
use linear_transformation::{BsgsRotations, PairRecord};
use std::alloc::AllocError;

#[derive(Clone, Copy)]
pub(crate) enum RotationsCall {
    List(ListCall),
    GiantSwitches,
    BabyPasses,
    GiantTree,
}

// The calls that write one list.
#[derive(Clone, Copy)]
pub(crate) enum ListCall {
    BabyClosure,
    BabyKeys,
    GiantKeys,
}

// Their kind, the two steps, slots. A kind that there is not has no steps.
// Kept: the sample gives the kind as a number, and no `From` for another crate's type can stand here.
fn rotations(words: &mut Words<'_>) -> BsgsRotations {
    let kind = words.word();
    let (baby_step, giant_step, slots) = (words.size(), words.size(), words.size());
    match kind {
        0 => BsgsRotations::PerRotation,
        1 => BsgsRotations::PowersOfTwo {
            baby_step,
            giant_step,
            slots,
        },
        _ => BsgsRotations::PowersOfTwo {
            baby_step: 0,
            giant_step: 0,
            slots,
        },
    }
}

impl RotationsCall {
    pub(crate) fn answer(self, words: &mut Words<'_>, answer: &mut Line) -> Result<(), AllocError> {
        match self {
            RotationsCall::BabyPasses => baby_passes(words, answer),
            RotationsCall::GiantTree => giant_tree(words, answer),
            RotationsCall::GiantSwitches => giant_key_switches(words, answer),
            RotationsCall::List(call) => call.answer(words, answer),
        }
    }
}

impl ListCall {
    fn answer(self, words: &mut Words<'_>, answer: &mut Line) -> Result<(), AllocError> {
        let rotations = rotations(words);
        let mut out = words.lent(7u32)?;
        let list = words.rest_signed()?;
        let written = match self {
            ListCall::BabyClosure => linear_transformation::baby_closure(
                rotations, &list, &mut out,
            ),
            ListCall::BabyKeys => linear_transformation::baby_key_rotations(
                rotations, &list, &mut out,
            ),
            ListCall::GiantKeys => linear_transformation::giant_key_rotations(
                rotations, &list, &mut out,
            ),
        };
        answer.show(written)?;
        answer.list(&out)
    }
}

// The length of what is written stands before the giants, though nothing is.
fn giant_key_switches(words: &mut Words<'_>, answer: &mut Line) -> Result<(), AllocError> {
    let rotations = rotations(words);
    words.size();
    let giants = words.rest_signed()?;
    answer.show(linear_transformation::giant_key_switches(rotations, &giants))
}

fn baby_passes(words: &mut Words<'_>, answer: &mut Line) -> Result<(), AllocError> {
    let rotations = rotations(words);
    let mut passes = words.lent(7u32)?;
    let mut moves = words.lent(7u32)?;
    let babies = words.rest_signed()?;
    answer.show(linear_transformation::baby_passes(rotations, &babies, &mut passes, &mut moves))?;
    answer.list(&passes)?;
    answer.list(&moves)
}

// Records as a call finds them; the next word is their number.
pub(crate) fn lent_records(words: &mut Words<'_>) -> Result<Vec<PairRecord>, AllocError> {
    let n = words.size().min(256);
    let held = PairRecord {
        odd: 7,
        even_there: true,
    };
    words.buffer(n, held)
}

fn giant_tree(words: &mut Words<'_>, answer: &mut Line) -> Result<(), AllocError> {
    let rotations = rotations(words);
    let mut leaves = words.lent(7u32)?;
    let mut levels = words.lent(7u32)?;
    let mut records = lent_records(words)?;
    let giants = words.rest_signed()?;
    answer.show(linear_transformation::giant_tree(
        rotations,
        &giants,
        &mut leaves,
        &mut levels,
        &mut records,
    ))?;
    answer.list(&leaves)?;
    answer.list(&levels)?;
    answer.list(&records)
}
