// The words of a call, read one after the other.
use std::alloc::{AllocError, Global};

// Of a list that the program copies or lends, it has so many words.
const MOST_COPIED: usize = 512;

// A word that is not there is 0, and a list ends where the words end. Copies of words and what a call
// is lent are made in `alloc`.
#[derive(Clone, Copy)]
pub(crate) struct Words<'a> {
    pub(crate) alloc: Global,
    rest: &'a [u64],
}

impl<'a> Words<'a> {
    pub(crate) fn new(alloc: Global, rest: &'a [u64]) -> Self {
        Words { alloc, rest }
    }

    pub(crate) fn word(&mut self) -> u64 {
        match self.rest.split_first() {
            Some((word, rest)) => {
                self.rest = rest;
                *word
            }
            None => 0,
        }
    }

    pub(crate) fn size(&mut self) -> usize {
        self.word() as usize
    }

    // The number whose two's complement is the word.
    pub(crate) fn signed(&mut self) -> i64 {
        self.word().cast_signed()
    }

    pub(crate) fn narrow(&mut self) -> u32 {
        narrow(self.word())
    }

    pub(crate) fn list(&mut self, n: usize) -> &'a [u64] {
        let (list, rest) = self.rest.split_at(n.min(self.rest.len()));
        self.rest = rest;
        list
    }

    // A list of n words modulo 2^32, of which the program copies 512 at most; zeros where words are missing.
    pub(crate) fn narrowed(&mut self, n: usize) -> Result<Vec<u32>, AllocError> {
        let mut copy = self.buffer(n, 0u32)?;
        for (place, &word) in copy.iter_mut().zip(self.list(n)) {
            *place = narrow(word);
        }
        Ok(copy)
    }

    pub(crate) fn rest(&self) -> &'a [u64] {
        self.rest
    }

    // Of these and of the bytes below the program copies 512 at most.
    pub(crate) fn rest_signed(&self) -> Result<Vec<i64>, AllocError> {
        self.rest
            .iter()
            .take(MOST_COPIED)
            .map(|&word| word.cast_signed())
            .collect(self.alloc)
    }

    // The low byte of each word.
    pub(crate) fn rest_bytes(&self) -> Result<Vec<u8>, AllocError> {
        self.rest
            .iter()
            .take(MOST_COPIED)
            .map(|&word| (word & 0xff) as u8)
            .collect(self.alloc)
    }

    // A lent buffer, whose length is the next word.
    pub(crate) fn lent<T: Copy>(&mut self, held: T) -> Result<Vec<T>, AllocError> {
        let n = self.size();
        self.buffer(n, held)
    }

    // A lent buffer of n words, of which the program has 512 at most.
    pub(crate) fn buffer<T: Copy>(&self, n: usize, held: T) -> Result<Vec<T>, AllocError> {
        vec![in self.alloc; held; n.min(MOST_COPIED)]
    }
}

fn narrow(word: u64) -> u32 {
    (word & 0xffff_ffff) as u32
}
