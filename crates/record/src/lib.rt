// A reservation's record on the disk: its numbers, its checksum and its 32 bytes.
#![tactic(auto)]

mod crc;
mod numbers;
mod sector;

pub use crc::{check_value, check_values, crc32};
pub use numbers::{Identifier, Rank, Reading, Sequence};
pub use sector::{
    Content, Format, LAST_SEQUENCE, Record, SECTOR_BYTES, classify, cleared, encode, is_sound,
    limits,
};

#[cfg(test)]
mod tests;
