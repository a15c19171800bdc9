// The map of a file.
ghost use Rattle.std.specs.Prelude.{◌≡◌, ◌+◌, ◌*◌, ◌≤◌, true, length, Some, MatchResult};
ghost use Rattle.ring.specs.Vectors.{tabulate, in_front};
ghost use Rattle.diagonals.specs.Maps.{pair_room, pair_words, value_words};
ghost use Rattle.map_file.specs.Files.{slots_in, map_in, is_file};
ghost use Rattle.map_file.specs.Calls.{file_refusal, room_in, room_answer, FileRead};
ghost use Rattle.map_file.specs.Steps.{pair_in, pairs_answer, Headed};

use crate::numbers::{u32_at, u64_at};
use ring::Refusal;

// What a file that was read tells: the map's slots and its number of pairs.
#[derive(Clone, Copy, Debug, PartialEq, Eq)]
pub struct FileMap {
    pub slots: usize,
    pub count: usize,
}

// The room that a file's map needs, in words of pairs and in values.
#[derive(Clone, Copy, Debug, PartialEq, Eq)]
pub struct FileRoom {
    pub pairs: usize,
    pub values: usize,
}

// The bytes of the first `count` pairs.
fn first_pairs(bytes: &[u8], count: usize) -> &[[u8; 8]]
    requires { 8 + 8 * count ≤ length bytes.now }
    ensures { result.now ≡ tabulate count (pair_in bytes.now) }
{
    &bytes[8..].as_chunks::<8>().0[..count]
}

// The number of values that well-formed pairs have. Refuses with 13 pairs that are not.
fn total_in(bytes: &[u8], slots: u32, count: usize) -> Result<usize, Refusal>
    requires { Headed bytes.now slots count }
    ensures { result ≡ pairs_answer bytes.now slots }
{
    let mut total: usize = 0;
    let mut next: u32 = 0;
    for pair in first_pairs(bytes, count) {
        let offset = u32_at(pair, 0);
        let len = u32_at(pair, 4);
        if offset < next || slots <= offset || !diagonals::is_period(slots, len) {
            return Err(Refusal::File);
        }
        next = offset + 1;
        total += len as usize;
    }
    Ok(total)
}

// An accepted file, and what it tells of its map.
#[derive(Clone, Copy)]
struct File<'a> {
    bytes: &'a [u8],
    slots: usize,
    count: usize,
    total: usize,
    ghost accepted: { is_file bytes.now ≡ true },
    ghost slots_is: { slots ≡ slots_in bytes.now },
    ghost count_is: { count ≡ length (map_in bytes.now) },
    ghost total_is: { total ≡ length (value_words (map_in bytes.now)) },
}

impl<'a> File<'a> {
    // The test of refusal 13. The length is held to the numbers by division, so that no number is too large.
    fn accept(bytes: &'a [u8]) -> Result<File<'a>, Refusal>
        ensures { MatchResult result
            (λ file. file.bytes.now ≡ bytes.now)
            (λ e. file_refusal bytes.now ≡ Some e) }
    {
        if bytes.len() < 8 {
            return Err(Refusal::File);
        }
        let slots = u32_at(bytes, 0);
        let count = u32_at(bytes, 4) as usize;
        if ring::is_outside(slots as usize) || bytes.len() / 8 - 1 < count {
            return Err(Refusal::File);
        }
        let total = total_in(bytes, slots, count)?;
        if bytes.len() != 8 + 8 * count + 8 * total {
            return Err(Refusal::File);
        }
        Ok(File {
            bytes,
            slots: slots as usize,
            count,
            total,
        })
    }

    fn room(&self) -> FileRoom
        ensures { result ≡ room_in self.now.bytes.now }
    {
        FileRoom {
            pairs: diagonals::pair_words(self.count as u32),
            values: self.total,
        }
    }

    fn read_pairs(&self, pairs: &mut [u32])
        requires { pair_room self.now.count ≤ length pairs.old }
        ensures { pairs.new ≡ in_front (pair_words (map_in self.now.bytes.now)) pairs.old }
    {
        for (i, pair) in first_pairs(self.bytes, self.count).iter().enumerate() {
            diagonals::put_pair(pairs, i, u32_at(pair, 0), u32_at(pair, 4));
        }
    }

    fn read_values(&self, values: &mut [u64])
        requires { length values.old ≡ self.now.total }
        ensures { values.new ≡ value_words (map_in self.now.bytes.now) }
    {
        let from = 8 + 8 * self.count;
        for (j, value) in values.iter_mut().enumerate() {
            *value = u64_at(self.bytes, from + 8 * j);
        }
    }
}

// The room that the map of a file needs. Refuses with 13 bytes that are no file.
pub fn map_file_room(bytes: &[u8]) -> Result<FileRoom, Refusal>
    ensures { result ≡ room_answer bytes.now }
{
    Ok(File::accept(bytes)?.room())
}

// The map of a file, its pairs and values in front of those lent. Refuses with 13 bytes that are no file,
// with 12 a buffer that is shorter than its part of the map.
pub fn read_map_file(
    bytes: &[u8],
    pairs: &mut [u32],
    values: &mut [u64],
) -> Result<FileMap, Refusal>
    ensures { FileRead bytes.now pairs.old pairs.new values.old values.new result }
{
    let file = File::accept(bytes)?;
    diagonals::check_room(file.count, file.total, pairs.len(), values.len())?;
    file.read_pairs(pairs);
    file.read_values(&mut values[..file.total]);
    Ok(FileMap {
        slots: file.slots,
        count: file.count,
    })
}
