// Map files.
ghost use Rattle.std.specs.Prelude.{◌≡◌};
ghost use Rattle.ring.specs.Answers.{numbers};
ghost use Rattle.map_file.specs.Calls.{size_answer, FileWritten, room_numbers, room_answer, map_numbers};
ghost use Rattle.sibukyaran.specs.Numbers.{told, told_room, told_map, Told, FileTold};

use map_file::{FileMap, FileRoom};
use ring::Refusal;

// A refusal (0: none), and the room that a file's map needs, in words of pairs and in values (0 where
// refused).
// Kept: C has no Result.
#[repr(C)]
#[derive(Clone, Copy)]
pub struct FileRoomNumbers {
    pub refusal: u32,
    pub pairs: usize,
    pub values: usize,
}

// A refusal (0: none), and a map's slots and number of pairs (0 where refused).
// Kept: C has no Result.
#[repr(C)]
#[derive(Clone, Copy)]
pub struct FileMapNumbers {
    pub refusal: u32,
    pub slots: usize,
    pub count: usize,
}

impl From<Result<FileRoom, Refusal>> for FileRoomNumbers {
    ghost from_gives = { λ r n. told_room n ≡ room_numbers r };

    // Kept: one From for each struct of C, whose fields have names of their own.
    fn from(answer: Result<FileRoom, Refusal>) -> Self {
        match answer {
            Ok(room) => FileRoomNumbers {
                refusal: 0,
                pairs: room.pairs,
                values: room.values,
            },
            Err(e) => FileRoomNumbers {
                refusal: e.number(),
                pairs: 0,
                values: 0,
            },
        }
    }
}

impl From<Result<FileMap, Refusal>> for FileMapNumbers {
    ghost from_gives = { λ r n. told_map n ≡ map_numbers r };

    // Kept: one From for each struct of C, whose fields have names of their own.
    fn from(answer: Result<FileMap, Refusal>) -> Self {
        match answer {
            Ok(map) => FileMapNumbers {
                refusal: 0,
                slots: map.slots,
                count: map.count,
            },
            Err(e) => FileMapNumbers {
                refusal: e.number(),
                slots: 0,
                count: 0,
            },
        }
    }
}

#[unsafe(no_mangle)]
pub extern "C" fn sibukyaran_map_file_size(
    slots: usize,
    count: usize,
    pairs: &[u32],
    values: &[u64],
) -> crate::Numbers
    ensures { told result ≡ numbers (size_answer slots count pairs.now values.now) }
{
    map_file::map_file_size(slots, count, pairs, values).into()
}

#[unsafe(no_mangle)]
pub extern "C" fn sibukyaran_write_map_file(
    slots: usize,
    count: usize,
    pairs: &[u32],
    values: &[u64],
    out: &mut [u8],
) -> crate::Numbers
    ensures { Told (FileWritten slots count pairs.now values.now out.old out.new) result }
{
    map_file::write_map_file(slots, count, pairs, values, out).into()
}

#[unsafe(no_mangle)]
pub extern "C" fn sibukyaran_map_file_room(bytes: &[u8]) -> FileRoomNumbers
    ensures { told_room result ≡ room_numbers (room_answer bytes.now) }
{
    map_file::map_file_room(bytes).into()
}

#[unsafe(no_mangle)]
pub extern "C" fn sibukyaran_read_map_file(
    bytes: &[u8],
    pairs: &mut [u32],
    values: &mut [u64],
) -> FileMapNumbers
    ensures { FileTold bytes.now pairs.old pairs.new values.old values.new result }
{
    map_file::read_map_file(bytes, pairs, values).into()
}
