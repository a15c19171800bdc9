// Answers the recorded calls: reads them from standard input and writes the answers, a line each,
// for the comparison with the Rust's recorded answers (docs/SAMPLE.md has the format).
#![tactic(auto)]

mod answer;
mod call;
mod files;
mod keyed;
mod lists;
mod matrices;
mod numbers;
mod plans;
mod rotations;
mod stored;
mod words;

use crate::answer::Line;
use crate::call::Call;
use crate::words::Words;
use std::alloc::{AllocError, Global};
use std::io;
use std::io::Read;

// What is read: so many bytes, and of these so many numbers.
const MOST_BYTES: u64 = 524288;

const MOST_NUMBERS: usize = 262144;

// Past 2^64 a number wraps.
fn number_of(digits: &[u8]) -> u64 {
    digits.iter().fold(0, |number: u64, digit| {
        number
            .wrapping_mul(10)
            .wrapping_add(u64::from(digit.wrapping_sub(b'0')))
    })
}

// The numbers of a text, and zeros behind them. Each byte that is no digit ends a number, so two in a row
// have a 0 between them.
fn numbers_of(alloc: Global, text: &[u8]) -> Result<Vec<u64>, AllocError> {
    let mut numbers = vec![in alloc; 0u64; MOST_NUMBERS]?;
    for (number, digits) in numbers
        .iter_mut()
        .zip(text.split(|byte| !byte.is_ascii_digit()))
    {
        *number = number_of(digits);
    }
    Ok(numbers)
}

// A code that no call has gives an empty line.
fn answer_to(alloc: Global, code: u64, words: &[u64]) -> Result<Line, AllocError> {
    let mut answer = Line::new(alloc);
    if let Ok(call) = Call::try_from(code) {
        call.answer(&mut Words::new(alloc, words), &mut answer)?;
    }
    Ok(answer)
}

// A call is its code, the number of its words, the words. Past the last call the numbers are zeros,
// and no call has the code 0.
// Kept: the place of a call, since a number of words may lead anywhere.
fn replay(rt: HostRuntime, alloc: Global, numbers: &[u64]) -> io::Result<()> {
    let mut at: usize = 0;
    for _ in 0..MOST_NUMBERS {
        let mut words = Words::new(alloc, numbers.get(at..).unwrap_or_default());
        let code = words.word();
        if code == 0 {
            return Ok(());
        }
        let count = words.size();
        let answer = answer_to(alloc, code, words.list(count))?;
        println!(rt; "{answer}")?;
        at = at.wrapping_add(count.wrapping_add(2));
    }
    Ok(())
}

fn main(rt: HostRuntime) -> io::Result<()> {
    let alloc = rt.alloc();
    let mut text = Vec::new(alloc);
    rt.reader().take(MOST_BYTES).read_to_end(&mut text)?;
    let numbers = numbers_of(alloc, &text)?;
    replay(rt, alloc, &numbers)
}
