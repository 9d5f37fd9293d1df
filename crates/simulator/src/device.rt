// The disks that a request file may choose.
ghost use Rattle.std.specs.Prelude.{◌≡◌, T, ◌*◌, ◌≤◌, length, drop, MatchResult, OnOk};
ghost use Rattle.disk.specs.Meaning.{answer_of, Wrote, Flushed, Cut};
ghost use Rattle.disk.specs.Blank.{WithoutRecords, cleared};
ghost use Rattle.disk.specs.Devices.{memory_disk};
ghost use Rattle.disk.specs.Memory.{right_size};
ghost use Rattle.disk.specs.declared.fault.Operation.TheVariants.{Write, Flush};
ghost use Rattle.simulator.specs.Devices.{meaning_of, device_moves, shaped, sized, make_of, room};

use disk::{Disk, DiskFault, FaithfulDisk, HoldBack, MemoryDisk, SizedDisk, TornDisk, blank_disk};
use record::SECTOR_BYTES;

// Which disk it is. The trials have such an enum of their own: neither crate has need of the other.
#[derive(Clone, Copy, PartialEq, Eq, Debug)]
pub enum Make {
    Faithful,
    Torn,
}

// One of the disks, over memory handed in.
#[derive(Drop)]
pub enum Device<'a> {
    Faithful(FaithfulDisk<'a>),
    Torn(TornDisk<'a>),
}

// How many writes and flushes succeed on a disk that is new.
const FIRST_SUPPLY: u64 = 1_000_000;

// What this number is.
pub fn supply_limit()
    ensures { FIRST_SUPPLY ≡ 1000000 }
{}

// Each method matches for itself: there is no heap for a box of either disk.
impl Disk for Device<'_> {
    ghost meaning = { meaning_of };

    ghost moves = { device_moves };

    ghost shaped = { shaped };

    fn sectors(&self) -> usize {
        match self {
            Device::Faithful(disk) => disk.sectors(),
            Device::Torn(disk) => disk.sectors(),
        }
    }

    fn read(&self, sector: usize) -> Result<[u8; SECTOR_BYTES], DiskFault> {
        match self {
            Device::Faithful(disk) => disk.read(sector),
            Device::Torn(disk) => disk.read(sector),
        }
    }

    fn write(&mut self, sector: usize, bytes: &[u8; SECTOR_BYTES]) -> Result<(), DiskFault> {
        match self {
            Device::Faithful(disk) => disk.write(sector, bytes),
            Device::Torn(disk) => disk.write(sector, bytes),
        }
    }

    fn flush(&mut self, sector: usize) -> Result<(), DiskFault> {
        match self {
            Device::Faithful(disk) => disk.flush(sector),
            Device::Torn(disk) => disk.flush(sector),
        }
    }

    fn cut(&mut self, tear: u64, supply: u64) {
        match self {
            Device::Faithful(disk) => disk.cut(tear, supply),
            Device::Torn(disk) => disk.cut(tear, supply),
        }
    }
}

impl SizedDisk for Device<'_> {
    ghost sized = { sized };
}

// A disk without records over all of a memory.
fn new_disk<'a, H: HoldBack>(memory: &'a mut [u8], sectors: usize) -> MemoryDisk<'a, H>
    requires { T (right_size (length memory.old) sectors) }
    ensures cleared { memory_disk H.holding.before result ≡ cleared sectors FIRST_SUPPLY }
    ensures without { WithoutRecords (memory_disk H.holding.before result) }
{
    let Ok(disk) = blank_disk(memory, sectors, FIRST_SUPPLY) else {
        unreachable()
    };
    disk
}

// A new disk of the make that is asked for.
fn over<'a>(make: Make, memory: &'a mut [u8], sectors: usize) -> Device<'a>
    requires { T (right_size (length memory.old) sectors) }
    ensures make { make_of result ≡ make }
    ensures cleared { meaning_of result ≡ cleared sectors FIRST_SUPPLY }
    ensures without { WithoutRecords (meaning_of result) }
{
    match make {
        Make::Faithful => Device::Faithful(new_disk(memory, sectors)),
        Make::Torn => Device::Torn(new_disk(memory, sectors)),
    }
}

// A memory in two parts: so many bytes, and the rest. Its clauses say of each part alone what std's say of both.
fn split(memory: &mut [u8], count: usize) -> (&mut [u8], &mut [u8])
    requires { count ≤ length memory.old }
    ensures front { length result.0.now ≡ count }
    ensures rest { result.1.now ≡ drop count memory.old }
{
    memory.split_at_mut(count)
}

// A new disk of so many sectors over the first bytes of a memory. The bytes past them are handed
// back as they are.
pub(crate) fn open<'a>(
    make: Make,
    memory: &'a mut [u8],
    sectors: usize,
) -> (Device<'a>, &'a mut [u8])
    requires { T (room (length memory.old) sectors) }
    ensures make { make_of result.0 ≡ make }
    ensures cleared { meaning_of result.0 ≡ cleared sectors FIRST_SUPPLY }
    ensures without { WithoutRecords (meaning_of result.0) }
    ensures spare { result.1.now ≡ drop (SECTOR_BYTES * sectors) memory.old }
{
    let (front, spare) = split(memory, SECTOR_BYTES * sectors);
    (over(make, front, sectors), spare)
}
