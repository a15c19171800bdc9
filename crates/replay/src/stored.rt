// The calls that have a map behind their own words: slots, count, np, nv, np pair words, nv value
// words. What a call writes holds sevens before, except the map of `set`.
use crate::answer::{Line, Shown};
use crate::plans::strategy;
use crate::words::Words;
use ring::Refusal;
use std::alloc::AllocError;

#[derive(Clone, Copy)]
pub(crate) enum MapCall {
    Get,
    Set,
    ShrinkPeriod,
    Transpose,
    Evaluate,
    Indexes,
    IsEmpty,
    FileSize,
    WriteFile,
}

// The map of a call. Its values are all words that are left: only `set` makes a copy, of `room` words.
// Kept: the library takes these four one by one, as C lends them, so that each call below writes them out.
#[derive(Drop)]
pub(crate) struct StoredMap<'a> {
    pub(crate) slots: usize,
    pub(crate) count: usize,
    pub(crate) pairs: Vec<u32>,
    pub(crate) room: usize,
    pub(crate) values: &'a [u64],
}

impl<'a> StoredMap<'a> {
    pub(crate) fn read(words: &mut Words<'a>) -> Result<Self, AllocError> {
        let slots = words.size();
        let count = words.size();
        let np = words.size();
        let room = words.size();
        let pairs = words.narrowed(np)?;
        let values = words.rest();
        Ok(StoredMap {
            slots,
            count,
            pairs,
            room,
            values,
        })
    }
}

impl MapCall {
    pub(crate) fn answer(self, words: &mut Words<'_>, answer: &mut Line) -> Result<(), AllocError> {
        match self {
            MapCall::Get => get(words, answer),
            MapCall::Set => set(words, answer),
            MapCall::ShrinkPeriod => write_map(words, answer, |m, pairs, values| {
                diagonals::shrink_period(m.slots, m.count, &m.pairs, m.values, pairs, values)
            }),
            MapCall::Transpose => write_map(words, answer, |m, pairs, values| {
                diagonals::transpose(m.slots, m.count, &m.pairs, m.values, pairs, values)
            }),
            MapCall::Evaluate => evaluate(words, answer),
            MapCall::Indexes => write_list(words, answer, 7u32, |m, out| {
                diagonals::indexes(m.slots, m.count, &m.pairs, m.values, out)
            }),
            MapCall::IsEmpty => {
                let map = StoredMap::read(words)?;
                answer.show(diagonals::is_empty(map.slots, map.count, &map.pairs, map.values))
            }
            MapCall::FileSize => {
                let map = StoredMap::read(words)?;
                answer.show(map_file::map_file_size(map.slots, map.count, &map.pairs, map.values))
            }
            MapCall::WriteFile => write_list(words, answer, 7u8, |m, out| {
                map_file::write_map_file(m.slots, m.count, &m.pairs, m.values, out)
            }),
        }
    }
}

fn get(words: &mut Words<'_>, answer: &mut Line) -> Result<(), AllocError> {
    let index = words.signed();
    let map = StoredMap::read(words)?;
    answer.show(diagonals::period(map.slots, map.count, &map.pairs, map.values, index))?;
    answer.list(diagonals::get(map.slots, map.count, &map.pairs, map.values, index))
}

fn set(words: &mut Words<'_>, answer: &mut Line) -> Result<(), AllocError> {
    let index = words.signed();
    let n = words.size();
    let new = words.list(n);
    let StoredMap {
        slots,
        count,
        mut pairs,
        room,
        values: own,
    } = StoredMap::read(words)?;
    let mut values = words.buffer(room, 0u64)?;
    for (value, &word) in values.iter_mut().zip(own) {
        *value = word;
    }
    answer.show(diagonals::set(slots, count, &mut pairs, &mut values, index, new))?;
    answer.list(&pairs)?;
    answer.list(&values)
}

// The calls that write a map: the lengths of what is written, np and nv, then the map.
fn write_map<F>(words: &mut Words<'_>, answer: &mut Line, write: F) -> Result<(), AllocError>
where
    F: FnOnce(&StoredMap<'_>, &mut [u32], &mut [u64]) -> Result<usize, Refusal>,
    requires { F.IsAlwaysCallable write }
{
    let mut pairs = words.lent(7u32)?;
    let mut values = words.lent(7u64)?;
    let map = StoredMap::read(words)?;
    answer.show(write(&map, &mut pairs, &mut values))?;
    answer.list(&pairs)?;
    answer.list(&values)
}

// A strategy's kind and width, the length of out, that of the input, the input, the map.
fn evaluate(words: &mut Words<'_>, answer: &mut Line) -> Result<(), AllocError> {
    let strategy = strategy(words);
    let mut out = words.lent(7u64)?;
    let n = words.size();
    let input = words.list(n);
    let map = StoredMap::read(words)?;
    answer.show(runs::evaluate(
        map.slots, map.count, &map.pairs, map.values, input, strategy, &mut out,
    ))?;
    answer.list(&out)
}

// The calls that write one list: its length, then the map.
fn write_list<T: Shown + Copy, F>(
    words: &mut Words<'_>,
    answer: &mut Line,
    held: T,
    write: F,
) -> Result<(), AllocError>
where
    F: FnOnce(&StoredMap<'_>, &mut [T]) -> Result<usize, Refusal>,
    requires { F.IsAlwaysCallable write }
{
    let mut out = words.lent(held)?;
    let map = StoredMap::read(words)?;
    answer.show(write(&map, &mut out))?;
    answer.list(&out)
}
