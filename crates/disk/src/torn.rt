// A disk that holds back the latest write, and tears it at a cut.
ghost use Rattle.std.specs.Prelude.{◌≡◌, ◌≤◌};
ghost use Rattle.disk.specs.Devices.{mixture, torn as left_of, latest_write};
ghost use Rattle.disk.specs.Tearing.{torn_lawful};

use crate::hold::HoldBack;
use crate::memory::MemoryDisk;
use crate::sectors::Sectors;
use record::{SECTOR_BYTES, is_sound};

// A write that is held back: its sector, and the bytes that it replaced.
#[derive(Clone, Copy)]
pub struct Held {
    sector: usize,
    old: [u8; SECTOR_BYTES],
}

// The newest write: the next one takes its place, and a flush lets it go.
pub type LatestWrite = Option<Held>;

// The disk that holds it back.
pub type TornDisk<'a> = MemoryDisk<'a, LatestWrite>;

// The old content, with so many of its first bytes replaced by those of the new.
fn mix(count: usize, old: &[u8; SECTOR_BYTES], new: &[u8; SECTOR_BYTES]) -> [u8; SECTOR_BYTES]
    requires { count ≤ 32 }
    ensures { result ≡ mixture count old.now new.now }
{
    let mut mixed = *old;
    mixed[0..count].copy_from_slice(&new[0..count]);
    mixed
}

// What a cut leaves of a sector whose write is held back.
fn tear_apart(tear: u64, old: &[u8; SECTOR_BYTES], new: &[u8; SECTOR_BYTES]) -> [u8; SECTOR_BYTES]
    ensures { result ≡ left_of tear old.now new.now }
{
    let mixed = mix((tear % 33) as usize, old, new);
    if is_sound(&mixed) && mixed != *old && mixed != *new {
        *old
    } else {
        mixed
    }
}

impl HoldBack for LatestWrite {
    ghost holding = { latest_write };

    ghost lawful = { torn_lawful };

    fn nothing() -> LatestWrite {
        None
    }

    fn hold(&mut self, sector: usize, old: [u8; SECTOR_BYTES]) {
        *self = Some(Held { sector, old });
    }

    fn tear(&self, tear: u64, sectors: &mut Sectors<'_>) {
        if let Some(held) = self {
            if held.sector < sectors.count() {
                let left = tear_apart(tear, &held.old, &sectors.load(held.sector));
                sectors.store(held.sector, &left);
            }
        }
    }
}
