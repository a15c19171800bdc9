// The map store (poulpy's diagonals.rs): a map is slots, a count, u32 pairs (diagonal offset, stored
// length) with offsets rising strictly, and u64 values back to back. Refusals are those of
// document 01.
#![tactic(auto)]

mod map;
mod pairs;
mod reading;
mod rotation;
mod setting;
mod shrinking;
mod slot_map;
mod transposing;

ghost use Rattle.std.specs.Prelude.{◌≡◌, ◌<◌, ◌&&◌, length, nat_le};
ghost use Rattle.ring.specs.Vectors.{tabulate};
ghost use Rattle.ring.specs.Divisors.{divides};
ghost use Rattle.diagonals.specs.Steps.Writing.{spin, Appending, Appended};
ghost use Rattle.diagonals.specs.Steps.Reading.{NoPeriod};

pub use map::{Map, check_map};
pub use pairs::{check_room, has_pairs, length_at, offset_at, pair_words, put_pair};
pub use reading::{get, indexes, is_empty, new, period, used_values};
use ring::Refusal;
pub use rotation::rotate_slots_into;
pub use setting::set;
pub use shrinking::{shrink_period, shrunk_period};
pub use slot_map::{from_slot_map, offset_of, zero_map};
pub use transposing::transpose;

// Whether len is at least 1 and divides slots.
pub fn is_period(slots: u32, len: u32) -> bool
    ensures { result ≡ (nat_le 1 len && divides len slots) }
{
    !is_no_period(slots as usize, len as usize)
}

// Whether len is 0 or no divisor of slots: the test of refusal 4.
fn is_no_period(slots: usize, len: usize) -> bool
    ensures { NoPeriod slots len result }
{
    len == 0 || slots % len != 0
}

// Fills out from src, round and round from index `from`, in straight runs: each but the first and the
// last is the whole of src.
// Kept: a loop over at, since a proof knows nothing of the elements once the borrow of `chunks_mut` is over.
fn fill(src: &[u64], from: usize, out: &mut [u64])
    requires { from < length src.now }
    ensures { out.new ≡ tabulate (length out.old) (spin src.now from) }
{
    let mut run = from;
    let mut at = 0;
    while at < out.len() {
        let m = (src.len() - run).min(out.len() - at);
        let end = at + m;
        ring::copy_into(&src[run..run + m], &mut out[at..end]);
        at = end;
        run = 0;
    }
}

// The n-th pair of a map that is written, and its values from `at` on: src round and round from
// index `from`.
// Kept: the two buffers and the place in each as parameters. A struct of them would hold two `&mut`, and
// each contract would also have to say that it still holds the same buffers.
fn append(
    src: &[u64],
    from: usize,
    offset: u32,
    len: usize,
    n: usize,
    at: usize,
    pairs: &mut [u32],
    values: &mut [u64],
)
    requires { Appending src.now from len n at pairs.old values.old }
    ensures { Appended src.now from offset len n at pairs.old pairs.new values.old values.new }
{
    put_pair(pairs, n, offset, len as u32);
    let end = at + len;
    fill(src, from, &mut values[at..end]);
}
