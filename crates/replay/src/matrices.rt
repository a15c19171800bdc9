// The calls of the matrix maps. There is room for 64 pair words and 512 value words, which hold sevens
// before; the words of the map alone are shown, since those behind it may be free.
use crate::answer::Line;
use crate::words::Words;
use maps::{Product, Rule};
use ring::Refusal;
use std::alloc::AllocError;

#[derive(Clone, Copy)]
pub(crate) enum MatrixCall {
    Map(MapOfMatrices),
    Values,
}

#[derive(Clone, Copy)]
pub(crate) enum MapOfMatrices {
    Rule,
    Tiled,
    RotateRowsRep,
    Product,
    LeftMulRep,
    SlotProduct,
}

// The maps of code 33.
#[derive(Clone, Copy)]
enum TiledMap {
    TauRep,
    FirstRow,
    FirstCol,
}

// The calls of code 37.
#[derive(Clone, Copy)]
enum Skewed {
    Sigma,
    Tau,
}

// The words that the call of a map is lent.
// Kept: the sample lends as many to each, so arrays hold them.
#[derive(Drop)]
struct Room {
    pairs: [u32; 64],
    values: [u64; 512],
}

impl MatrixCall {
    pub(crate) fn answer(self, words: &mut Words<'_>, answer: &mut Line) -> Result<(), AllocError> {
        match self {
            MatrixCall::Map(map) => {
                let mut room = Room {
                    pairs: [7; 64],
                    values: [7; 512],
                };
                let made = map.make(words, &mut room);
                room.show(made, answer)
            }
            MatrixCall::Values => skewed_values(words, answer),
        }
    }
}

impl Room {
    // What a call answered, and the words of its map, whose diagonals have one stored length.
    fn show(&self, made: Result<usize, Refusal>, answer: &mut Line) -> Result<(), AllocError> {
        answer.show(made)?;
        let count = made.unwrap_or(0).min(32);
        let len = diagonals::length_at(&self.pairs, 0) as usize;
        answer.list(&self.pairs[..2 * count])?;
        answer.list(&self.values[..(count * len).min(512)])
    }
}

impl MapOfMatrices {
    fn make(self, w: &mut Words<'_>, room: &mut Room) -> Result<usize, Refusal> {
        let Room { pairs, values } = room;
        match self {
            MapOfMatrices::Rule => rule(w, room),
            MapOfMatrices::Tiled => tiled(w, room),
            MapOfMatrices::Product => product(w, room),
            MapOfMatrices::RotateRowsRep => {
                maps::rotate_rows_rep(w.size(), w.size(), w.size(), pairs, values)
            }
            MapOfMatrices::LeftMulRep => {
                maps::left_mul_rep(w.size(), w.size(), w.rest(), pairs, values)
            }
            MapOfMatrices::SlotProduct => {
                let slots = w.size();
                let rotation = w.signed();
                maps::slot_product(slots, w.rest(), rotation, pairs, values)
            }
        }
    }
}

// A number that no rule has is the last one's.
// Kept: `Rule` is of another crate, for which no `From` can stand here, and k goes into it.
fn rule_of(number: u64, k: usize) -> Rule {
    match number {
        0 => Rule::Sigma,
        1 => Rule::Tau,
        2 => Rule::Transpose,
        3 => Rule::RotateRows { k },
        4 => Rule::RotateCols { k },
        5 => Rule::RowsUpper { k },
        6 => Rule::RowsLower { k },
        7 => Rule::ColsLeft { k },
        8 => Rule::ColsRight { k },
        9 => Rule::RowsLeft { k },
        _ => Rule::RowsRight { k },
    }
}

// The maps that read one entry: the rule's number, slots, log_d, k.
fn rule(w: &mut Words<'_>, room: &mut Room) -> Result<usize, Refusal> {
    let number = w.word();
    let (slots, log_d) = (w.size(), w.size());
    let Room { pairs, values } = room;
    match rule_of(number, w.size()) {
        Rule::Sigma => maps::sigma(slots, log_d, pairs, values),
        Rule::Tau => maps::tau(slots, log_d, pairs, values),
        Rule::Transpose => maps::transpose(slots, log_d, pairs, values),
        Rule::RotateRows { k } => maps::rotate_rows(slots, log_d, k, pairs, values),
        Rule::RotateCols { k } => maps::rotate_cols(slots, log_d, k, pairs, values),
        Rule::RowsUpper { k } => maps::rows_upper(slots, log_d, k, pairs, values),
        Rule::RowsLower { k } => maps::rows_lower(slots, log_d, k, pairs, values),
        Rule::ColsLeft { k } => maps::cols_left(slots, log_d, k, pairs, values),
        Rule::ColsRight { k } => maps::cols_right(slots, log_d, k, pairs, values),
        Rule::RowsLeft { k } => maps::rows_left(slots, log_d, k, pairs, values),
        Rule::RowsRight { k } => maps::rows_right(slots, log_d, k, pairs, values),
    }
}

// A number that no map has is the last one's.
impl From<u64> for TiledMap {
    fn from(number: u64) -> Self {
        match number {
            0 => TiledMap::TauRep,
            1 => TiledMap::FirstRow,
            _ => TiledMap::FirstCol,
        }
    }
}

// The map's number, slots, log_d.
fn tiled(w: &mut Words<'_>, room: &mut Room) -> Result<usize, Refusal> {
    let map = TiledMap::from(w.word());
    let Room { pairs, values } = room;
    match map {
        TiledMap::TauRep => maps::tau_rep(w.size(), w.size(), pairs, values),
        TiledMap::FirstRow => maps::first_row(w.size(), w.size(), pairs, values),
        TiledMap::FirstCol => maps::first_col(w.size(), w.size(), pairs, values),
    }
}

// A number that no product has is the last one's.
// Kept: `Product` is of another crate, for which no `From` can stand here.
fn product_of(number: u64) -> Product {
    match number {
        0 => Product::RightMul,
        1 => Product::LeftMul,
        2 => Product::RightJkls,
        _ => Product::LeftJkls,
    }
}

// The product's number, slots, log_d, count, the matrices.
fn product(w: &mut Words<'_>, room: &mut Room) -> Result<usize, Refusal> {
    let product = product_of(w.word());
    let (slots, log_d, count) = (w.size(), w.size(), w.size());
    let Room { pairs, values } = room;
    match product {
        Product::RightMul => maps::right_mul(slots, log_d, count, w.rest(), pairs, values),
        Product::LeftMul => maps::left_mul(slots, log_d, count, w.rest(), pairs, values),
        Product::RightJkls => maps::right_jkls(slots, log_d, count, w.rest(), pairs, values),
        Product::LeftJkls => maps::left_jkls(slots, log_d, count, w.rest(), pairs, values),
    }
}

// Tau has all numbers but 0.
impl From<u64> for Skewed {
    fn from(number: u64) -> Self {
        match number {
            0 => Skewed::Sigma,
            _ => Skewed::Tau,
        }
    }
}

// The number (1 for tau, 0 for sigma), log_d, count, the matrices; out has as many words as these.
fn skewed_values(words: &mut Words<'_>, answer: &mut Line) -> Result<(), AllocError> {
    let skewed = Skewed::from(words.word());
    let log_d = words.size();
    let count = words.size();
    let b = words.rest();
    let mut out = words.buffer(b.len(), 7u64)?;
    answer.show(match skewed {
        Skewed::Sigma => maps::sigma_values(log_d, count, b, &mut out),
        Skewed::Tau => maps::tau_values(log_d, count, b, &mut out),
    })?;
    answer.list(&out)
}
