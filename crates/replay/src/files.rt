// The calls on the bytes of a file. What a call writes holds sevens before.
use crate::answer::Line;
use crate::words::Words;
use std::alloc::AllocError;

#[derive(Clone, Copy)]
pub(crate) enum FileCall {
    Room,
    Read,
}

impl FileCall {
    pub(crate) fn answer(self, words: &mut Words<'_>, answer: &mut Line) -> Result<(), AllocError> {
        match self {
            FileCall::Room => {
                let bytes = words.rest_bytes()?;
                answer.show(map_file::map_file_room(&bytes))
            }
            FileCall::Read => read(words, answer),
        }
    }
}

// The lengths of what is written, the bytes.
fn read(words: &mut Words<'_>, answer: &mut Line) -> Result<(), AllocError> {
    let mut pairs = words.lent(7u32)?;
    let mut values = words.lent(7u64)?;
    let bytes = words.rest_bytes()?;
    answer.show(map_file::read_map_file(&bytes, &mut pairs, &mut values))?;
    answer.list(&pairs)?;
    answer.list(&values)
}
