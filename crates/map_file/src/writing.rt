// The file of a map.
ghost use Rattle.std.specs.Prelude.{◌≡◌, ◌+◌, ◌*◌, ◌≤◌, length};
ghost use Rattle.ring.specs.Lists.{join};
ghost use Rattle.ring.specs.Vectors.{put_at};
ghost use Rattle.diagonals.specs.Maps.{view};
ghost use Rattle.map_file.specs.Files.{bytes_of, pair_bytes};
ghost use Rattle.map_file.specs.Calls.{size_answer, FileWritten};

use crate::numbers::put;
use diagonals::Map;
use ring::Refusal;

// The number of bytes of an accepted map's file.
fn file_size(map: &Map) -> usize
    ensures { result ≡ 8 + 8 * map.now.count + 8 * map.now.total }
{
    8 + 8 * map.count + 8 * map.total
}

// The number of bytes of a map's file. Refuses with 1 or 2 a map that the store refuses.
// Kept: C lends a map as slots, a count and two buffers.
pub fn map_file_size(
    slots: usize,
    count: usize,
    pairs: &[u32],
    values: &[u64],
) -> Result<usize, Refusal>
    ensures { result ≡ size_answer slots count pairs.now values.now }
{
    Ok(file_size(&Map::accept(slots, count, pairs, values)?))
}

fn write_pairs(map: &Map, out: &mut [u8])
    requires { 8 + 8 * map.now.count ≤ length out.old }
    ensures { out.new ≡ put_at 8 (join pair_bytes (view map.now.count map.now.pairs.now map.now.values.now)) out.old }
{
    for (i, &[offset, len]) in map.entries().iter().enumerate() {
        let at = 8 + 8 * i;
        put(out, at, offset.to_le_bytes());
        put(out, at + 4, len.to_le_bytes());
    }
}

fn write_values(values: &[u64], from: usize, out: &mut [u8])
    requires { from + 8 * length values.now ≤ length out.old }
    ensures { out.new ≡ put_at from (join (bytes_of 8) values.now) out.old }
{
    for (j, &value) in values.iter().enumerate() {
        put(out, from + 8 * j, value.to_le_bytes());
    }
}

// The file of an accepted map.
fn write_accepted(map: &Map, out: &mut [u8]) -> Result<usize, Refusal>
    ensures { FileWritten map.now.slots map.now.count map.now.pairs.now map.now.values.now out.old out.new result }
{
    let size = file_size(map);
    if out.len() < size {
        return Err(Refusal::Room);
    }
    put(out, 0, (map.slots as u32).to_le_bytes());
    put(out, 4, (map.count as u32).to_le_bytes());
    write_pairs(map, out);
    write_values(&map.values[..map.total], 8 + 8 * map.count, out);
    Ok(size)
}

// The file of a map in front of out; the answer is the number of its bytes. Refuses with 1 or 2 a map
// that the store refuses, with 12 an `out` that is shorter than the file.
// Kept: C lends a map as slots, a count and two buffers.
pub fn write_map_file(
    slots: usize,
    count: usize,
    pairs: &[u32],
    values: &[u64],
    out: &mut [u8],
) -> Result<usize, Refusal>
    ensures { FileWritten slots count pairs.now values.now out.old out.new result }
{
    write_accepted(&Map::accept(slots, count, pairs, values)?, out)
}
