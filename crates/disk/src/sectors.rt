// Memory handed in, as sectors of 32 bytes.
ghost use Rattle.std.specs.Prelude.{◌≡◌, ◌/◌, ◌<◌, ◌≤◌, ◌++◌, length, drop, is_ok, IfOk, MatchResult, slice_set};
ghost use Rattle.disk.specs.Meaning.{at, found};
ghost use Rattle.disk.specs.Memory.{IsSize, right_size, sectors as cut_up, spare, stored};

use crate::fault::{Cause, DiskFault, Operation};
use crate::size::{BadSize, is_right_size};
use record::SECTOR_BYTES;

// The memory itself: sector i is the 32 bytes from 32 × i on. They are found by number, since of a slice that was cut up by
// `as_chunks_mut` no clause says what it ends as.
#[derive(Drop)]
pub struct Sectors<'a> {
    pub(crate) memory: &'a mut [u8],
    ghost sized: { IsSize (length memory.now / 32) },
}

// Copies a sector over the first bytes of a part of the memory.
fn put(part: &mut [u8], bytes: &[u8; SECTOR_BYTES])
    requires { 32 ≤ length part.old }
    ensures { part.new ≡ bytes.now ++ drop 32 part.old }
{
    part[0..SECTOR_BYTES].copy_from_slice(bytes);
}

impl<'a> Sectors<'a> {
    // Memory of 32 bytes a sector; any other is handed back.
    pub(crate) fn over(memory: &'a mut [u8], sectors: usize) -> Result<Sectors<'a>, BadSize<'a>>
        ensures test { is_ok result ≡ right_size (length memory.old) sectors }
        ensures count { IfOk result (λ s. length (cut_up s.memory.now) ≡ sectors) }
        ensures cases { MatchResult result
            (λ s. s.memory.now ≡ memory.old)
            (λ e. e.memory.now ≡ memory.old) }
    {
        if is_right_size(memory.len(), sectors) {
            Ok(Sectors { memory })
        } else {
            Err(BadSize { memory })
        }
    }

    // How many whole sectors the memory has.
    pub(crate) fn count(&self) -> usize
        ensures value { result ≡ length self.now.memory.now / 32 }
        ensures listed { result ≡ length (cut_up self.now.memory.now) }
    {
        self.memory.len() / SECTOR_BYTES
    }

    // A copy of a sector that is there.
    pub(crate) fn load(&self, sector: usize) -> [u8; SECTOR_BYTES]
        requires { sector < length self.now.memory.now / 32 }
        ensures { result ≡ at (cut_up self.now.memory.now) sector }
    {
        let from = SECTOR_BYTES * sector;
        let mut bytes = [0; SECTOR_BYTES];
        bytes.copy_from_slice(&self.memory[from..from + SECTOR_BYTES]);
        bytes
    }

    // Writes a sector that is there, and no byte beside it.
    pub(crate) fn store(&mut self, sector: usize, bytes: &[u8; SECTOR_BYTES])
        requires { sector < length self.old.memory.now / 32 }
        ensures sectors { let before = cut_up self.old.memory.now in
            cut_up self.new.memory.now ≡ slice_set before sector bytes.now }
        ensures spare { spare self.new.memory.now ≡ spare self.old.memory.now }
        ensures memory { self.new.memory.now ≡ stored self.old.memory.now sector bytes.now }
    {
        put(&mut self.memory[SECTOR_BYTES * sector..], bytes);
    }

    // A copy of any sector, or the denial of one that is not there.
    pub(crate) fn read(&self, sector: usize) -> Result<[u8; SECTOR_BYTES], DiskFault>
        ensures { result ≡ found (cut_up self.now.memory.now) sector }
    {
        if sector >= self.count() {
            return Err(DiskFault {
                cause: Cause::NoSector,
                operation: Operation::Read,
                sector,
            });
        }
        Ok(self.load(sector))
    }
}
