// The sizes that a disk may have.
ghost use Rattle.std.specs.Prelude.{◌≡◌, length, Some};
ghost use Rattle.disk.specs.Faults.{cause_details, bad_size_text};
ghost use Rattle.disk.specs.declared.fault.Cause.TheVariants.{NoSector};
ghost use Rattle.disk.specs.Memory.{right_size};

use crate::fault::Cause;
use record::SECTOR_BYTES;
use std::error::Error;
use std::fmt;

// The least and the greatest number of sectors.
pub const LEAST_SECTORS: usize = 10;

pub const MOST_SECTORS: usize = 2048;

// What these numbers are.
pub fn limits()
    ensures { (LEAST_SECTORS ≡ 10) × (MOST_SECTORS ≡ 2048) }
{}

// Memory that was handed in for a disk and has not its size, or whose sector count is out of range: it is handed back.
#[derive(Drop, Debug)]
pub struct BadSize<'a> {
    pub memory: &'a mut [u8],
}

impl BadSize<'_> {
    // The number that the denial goes by.
    pub fn number(&self) -> u8
        ensures { result ≡ (cause_details NoSector).number }
    {
        Cause::NoSector.number()
    }
}

// How many bytes were handed in, and what a disk has.
impl fmt::Display for BadSize<'_> {
    ghost output = { λ bad. Some (bad_size_text (length bad.memory.now)) };

    fn fmt<W: fmt::Write>(&self, f: &mut fmt::Formatter<W>) -> fmt::Result {
        let bytes = self.memory.len();
        write!(
            f,
            "memory of {bytes} bytes is not 32 bytes for each sector asked for, or these are not 10 to 2048"
        )
    }
}

impl Error for BadSize<'_> {}

// Whether a memory is that of a disk of so many sectors. Each constructor of a disk says this of its answer: no type can say it
// of a memory that was turned away.
pub fn is_right_size(bytes: usize, sectors: usize) -> bool
    ensures { result ≡ right_size bytes sectors }
{
    (LEAST_SECTORS..=MOST_SECTORS).contains(&sectors) && bytes == SECTOR_BYTES * sectors
}
