// A map as the bytes of a file (document 02, A1): slots and count, four bytes each, then the pairs, four
// bytes a number, then the values, eight bytes each, all least byte first. Refusals are those of
// documents 01 and 02.
#![tactic(auto)]

mod numbers;
mod reading;
mod writing;

pub use reading::{FileMap, FileRoom, map_file_room, read_map_file};
pub use writing::{map_file_size, write_map_file};
