// The line of an answer: numbers, each but the first behind a space.
use linear_transformation::{Digit, PairRecord, PassSizes, PlanSizes, TreeSizes};
use map_file::{FileMap, FileRoom};
use ring::Refusal;
use runs::keyed::Progress;
use std::alloc::{AllocError, Global};
use std::fmt;

#[derive(Drop)]
pub(crate) struct Line {
    text: String,
}

impl Line {
    pub(crate) fn new(alloc: Global) -> Self {
        Line {
            text: String::new(alloc),
        }
    }

    pub(crate) fn number(&mut self, number: u64) -> Result<(), AllocError> {
        if !self.text.is_empty() {
            self.text.push(' ')?;
        }
        write!(self.text, "{number}")
    }

    pub(crate) fn show(&mut self, value: impl Shown) -> Result<(), AllocError> {
        value.show(self)
    }

    pub(crate) fn list<T: Shown + Copy>(&mut self, list: &[T]) -> Result<(), AllocError> {
        for &value in list {
            value.show(self)?;
        }
        Ok(())
    }
}

impl fmt::Display for Line {
    fn fmt<W: fmt::Write>(&self, f: &mut fmt::Formatter<W>) -> fmt::Result {
        f.write_str(self.text.as_str())
    }
}

// What an answer is made of, and what a refused call gives in its place: zeros.
pub(crate) trait Shown: Drop {
    const EMPTY: Self;

    fn show(self, answer: &mut Line) -> Result<(), AllocError>;
}

impl<T: Shown> Shown for Result<T, Refusal> {
    const EMPTY: Self = Ok(T::EMPTY);

    fn show(self, answer: &mut Line) -> Result<(), AllocError> {
        match self {
            Ok(value) => {
                answer.number(0)?;
                value.show(answer)
            }
            Err(refusal) => {
                answer.number(refusal.number() as u64)?;
                T::EMPTY.show(answer)
            }
        }
    }
}

impl Shown for () {
    const EMPTY: Self = ();

    fn show(self, _answer: &mut Line) -> Result<(), AllocError> {
        Ok(())
    }
}

// Kept: one impl for each type of number, since one over Into<u64> would meet those of the structs.
impl Shown for u64 {
    const EMPTY: Self = 0;

    fn show(self, answer: &mut Line) -> Result<(), AllocError> {
        answer.number(self)
    }
}

impl Shown for u32 {
    const EMPTY: Self = 0;

    fn show(self, answer: &mut Line) -> Result<(), AllocError> {
        answer.number(u64::from(self))
    }
}

impl Shown for u8 {
    const EMPTY: Self = 0;

    fn show(self, answer: &mut Line) -> Result<(), AllocError> {
        answer.number(u64::from(self))
    }
}

impl Shown for usize {
    const EMPTY: Self = 0;

    fn show(self, answer: &mut Line) -> Result<(), AllocError> {
        answer.number(self as u64)
    }
}

impl Shown for bool {
    const EMPTY: Self = false;

    fn show(self, answer: &mut Line) -> Result<(), AllocError> {
        answer.number(u64::from(self))
    }
}

// A digit is in -32768..32767, so its residue modulo 65,536 tells it.
impl Shown for Digit {
    const EMPTY: Self = Digit(0);

    fn show(self, answer: &mut Line) -> Result<(), AllocError> {
        answer.show(ring::residue(self.0, 65536))
    }
}

impl Shown for PlanSizes {
    const EMPTY: Self = PlanSizes {
        babies: 0,
        giants: 0,
        diagonals: 0,
    };

    fn show(self, answer: &mut Line) -> Result<(), AllocError> {
        answer.list(&[self.babies, self.giants, self.diagonals])
    }
}

impl Shown for PassSizes {
    const EMPTY: Self = PassSizes {
        passes: 0,
        moves: 0,
    };

    fn show(self, answer: &mut Line) -> Result<(), AllocError> {
        answer.show(self.passes)?;
        answer.show(self.moves)
    }
}

// Zeros where there is no tree.
impl Shown for Option<TreeSizes> {
    const EMPTY: Self = None;

    fn show(self, answer: &mut Line) -> Result<(), AllocError> {
        let TreeSizes { bits, pairs } = self.unwrap_or(TreeSizes { bits: 0, pairs: 0 });
        answer.show(bits)?;
        answer.show(pairs)
    }
}

impl Shown for Progress {
    const EMPTY: Self = Progress {
        switches: 0,
        finished: false,
        babies: 0,
        giants: 0,
        diagonals: 0,
        pairs: 0,
    };

    fn show(self, answer: &mut Line) -> Result<(), AllocError> {
        answer.show(self.switches)?;
        answer.show(self.finished)?;
        answer.list(&[self.babies, self.giants, self.diagonals])?;
        answer.show(self.pairs)
    }
}

// The odd node, and 1 where the even one is there.
impl Shown for PairRecord {
    const EMPTY: Self = PairRecord {
        odd: 0,
        even_there: false,
    };

    fn show(self, answer: &mut Line) -> Result<(), AllocError> {
        answer.show(self.odd)?;
        answer.show(self.even_there)
    }
}

impl Shown for FileMap {
    const EMPTY: Self = FileMap { slots: 0, count: 0 };

    fn show(self, answer: &mut Line) -> Result<(), AllocError> {
        answer.list(&[self.slots, self.count])
    }
}

impl Shown for FileRoom {
    const EMPTY: Self = FileRoom {
        pairs: 0,
        values: 0,
    };

    fn show(self, answer: &mut Line) -> Result<(), AllocError> {
        answer.list(&[self.pairs, self.values])
    }
}
