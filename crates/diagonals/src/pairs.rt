// The pairs of a map, two words each, diagonal offset and stored length. A pair that is not there reads
// as zeros and is not written.
ghost use Rattle.std.specs.Prelude.{◌≡◌, ◌≤◌, length, nat_le};
ghost use Rattle.diagonals.specs.Maps.{pair_room, offset_at, length_at, pair_at, put_pair};
ghost use Rattle.ring.specs.Vectors.{tabulate};
ghost use Rattle.diagonals.specs.Calls.{RoomJudged};

use ring::Refusal;

// Whether the words of n pairs fit.
pub fn has_pairs(pairs: &[u32], n: usize) -> bool
    ensures { result ≡ nat_le (pair_room n) (length pairs.now) }
{
    n <= pairs.len() / 2
}

// The words that n pairs take.
pub fn pair_words(n: u32) -> usize
    ensures { result ≡ pair_room n }
{
    2 * n as usize
}

pub fn offset_at(pairs: &[u32], i: usize) -> u32
    ensures { result ≡ offset_at pairs.now i }
{
    if i < pairs.len().div_ceil(2) {
        pairs[2 * i]
    } else {
        0
    }
}

pub fn length_at(pairs: &[u32], i: usize) -> u32
    ensures { result ≡ length_at pairs.now i }
{
    if i < pairs.len() / 2 {
        pairs[2 * i + 1]
    } else {
        0
    }
}

// The first n pairs, for walks over them.
pub(crate) fn first_pairs(words: &[u32], n: usize) -> &[[u32; 2]]
    requires { pair_room n ≤ length words.now }
    ensures { result.now ≡ tabulate n (pair_at words.now) }
{
    &words.as_chunks::<2>().0[..n]
}

pub fn put_pair(pairs: &mut [u32], i: usize, offset: u32, len: u32)
    ensures { pairs.new ≡ put_pair pairs.old i offset len }
{
    if i < pairs.len() / 2 {
        let at = 2 * i;
        pairs[at] = offset;
        pairs[at + 1] = len;
    }
}

// Refuses with 12 a map of `count` pairs and `total` values that does not fit buffers of these lengths.
pub fn check_room(count: usize, total: usize, pairs: usize, values: usize) -> Result<(), Refusal>
    ensures { RoomJudged count total pairs values result }
{
    if pairs / 2 < count || values < total {
        return Err(Refusal::Room);
    }
    Ok(())
}
