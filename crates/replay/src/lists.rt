// The calls of the crate ring that have lists, `rotate_slots_into` and `from_slot_map`. What a call
// writes holds sevens before, but for the 16 threes of `multiply_add_into`.
use crate::answer::Line;
use crate::words::Words;
use std::alloc::AllocError;

#[derive(Clone, Copy)]
pub(crate) enum ListCall {
    MinPeriod,
    MultiplyAddInto,
    FromSlotMap,
    RotateSlotsInto,
}

impl ListCall {
    pub(crate) fn answer(self, words: &mut Words<'_>, answer: &mut Line) -> Result<(), AllocError> {
        match self {
            ListCall::MinPeriod => answer.show(ring::min_period(words.rest())),
            ListCall::MultiplyAddInto => multiply_add_into(words, answer),
            ListCall::FromSlotMap => from_slot_map(words, answer),
            ListCall::RotateSlotsInto => rotate_slots_into(words, answer),
        }
    }
}

// The number of the first factors, these, the second factors.
// Kept: the sample lends 16 words to each such call, so an array holds them.
fn multiply_add_into(words: &mut Words<'_>, answer: &mut Line) -> Result<(), AllocError> {
    let n = words.size();
    let first = words.list(n);
    let mut out = [3u64; 16];
    answer.show(ring::multiply_add_into(first, words.rest(), &mut out))?;
    answer.list(&out)
}

fn rotate_slots_into(words: &mut Words<'_>, answer: &mut Line) -> Result<(), AllocError> {
    let k = words.signed();
    let mut out = words.lent(7u64)?;
    answer.show(diagonals::rotate_slots_into(words.rest(), k, &mut out))?;
    answer.list(&out)
}

// Slots, period, np, nv, the lengths of the three lists, the lists; the last of these is all words that are left.
fn from_slot_map(words: &mut Words<'_>, answer: &mut Line) -> Result<(), AllocError> {
    let slots = words.size();
    let period = words.size();
    let mut pairs = words.lent(7u32)?;
    let mut values = words.lent(7u64)?;
    let (ni, nj, _nw) = (words.size(), words.size(), words.size());
    let is = words.narrowed(ni)?;
    let js = words.narrowed(nj)?;
    let ws = words.rest();
    answer.show(diagonals::from_slot_map(slots, period, &is, &js, ws, &mut pairs, &mut values))?;
    answer.list(&pairs)?;
    answer.list(&values)
}
