// A disk on which a write lasts as soon as it is made.
ghost use Rattle.disk.specs.Devices.{write_through};
ghost use Rattle.std.proofs.Common.{rules};

use crate::hold::HoldBack;
use crate::memory::MemoryDisk;
use crate::sectors::Sectors;
use record::SECTOR_BYTES;

// No write is held back: what is read is kept.
#[derive(Clone, Copy)]
pub struct WriteThrough;

// The disk whose memory is both what is read and what is kept.
pub type FaithfulDisk<'a> = MemoryDisk<'a, WriteThrough>;

impl HoldBack for WriteThrough {
    ghost holding = { write_through };

    ghost lawful = { Prim.search rules };

    fn nothing() -> WriteThrough {
        WriteThrough
    }

    fn hold(&mut self, _sector: usize, _old: [u8; SECTOR_BYTES]) {}

    fn tear(&self, _tear: u64, _sectors: &mut Sectors<'_>) {}
}
