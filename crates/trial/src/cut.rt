// One trial: the current fails inside the write of one record.
ghost use Rattle.std.specs.Prelude.{◌≡◌, T, Ok};
ghost use Rattle.record.specs.declared.sector.Content.TheVariants.{Record as Holds};
ghost use Rattle.disk.specs.Memory.{sectors};
ghost use Rattle.trial.specs.Trial.{blank_sectors, left_on, KeepsNewer, OneOfThree};
ghost use Rattle.trial.specs.Trial.{format as the_format, older as the_older, newer as the_newer};

use disk::{Disk, DiskFault, HoldBack, MemoryDisk};
use record::{Content, Format, Rank, Record, SECTOR_BYTES, Sequence, classify, encode};

// How many sectors the disk of the trial has.
const SECTORS: usize = 10;

// Enough writes and flushes for a trial, and again after the cut.
const SUPPLY: u64 = 100;

// The tag of the serial kind.
const TAG: u8 = 1;

// The sector that both records name.
const SECTOR: usize = 3;

// What the records of the trial's disk have in common.
fn format() -> Format
    ensures { result ≡ the_format }
{
    Format {
        tag: TAG,
        top: Rank(999_999_998),
        sectors: SECTORS,
    }
}

// Record 3 of series 2: the ranks below 200 are reserved.
pub fn older() -> Record
    ensures { result ≡ the_older }
{
    Record {
        series: 2,
        sequence: Sequence(3),
        end: Rank(200),
    }
}

// Record 13 of the same series: the ranks below 300 are reserved.
pub fn newer() -> Record
    ensures { result ≡ the_newer }
{
    Record {
        series: 2,
        sequence: Sequence(13),
        end: Rank(300),
    }
}

// The trial on a disk that is blank: the older record is written and flushed, the newer one is written over it, and flushed
// too if asked; then the current fails, and the sector is read.
fn rewrite_and_cut<H: HoldBack>(
    disk: &mut MemoryDisk<'_, H>,
    flushed: bool,
    tear: u64,
) -> Result<Content, DiskFault>
    requires { (sectors disk.old.sectors.memory.now ≡ blank_sectors) × (disk.old.supply ≡ SUPPLY) }
    ensures { result ≡ Ok (left_on H.holding flushed tear) }
{
    disk.write(SECTOR, &encode(TAG, older()))?;
    disk.flush(SECTOR)?;
    disk.write(SECTOR, &encode(TAG, newer()))?;
    if flushed {
        disk.flush(SECTOR)?;
    }
    disk.cut(tear, SUPPLY);
    Ok(classify(format(), SECTOR, &disk.read(SECTOR)?))
}

// One trial on a disk that holds back as this type says: what the sector then holds.
pub fn left_by<H: HoldBack>(flushed: bool, tear: u64) -> Content
    ensures value { result ≡ left_on H.holding flushed tear }
    ensures one_of_three { OneOfThree result }
    ensures settled { T flushed → result ≡ Holds the_newer }
    ensures stands { KeepsNewer H.holding flushed → result ≡ Holds the_newer }
{
    let mut memory = [0; SECTORS * SECTOR_BYTES];
    let Ok(mut disk) = MemoryDisk::<H>::new(&mut memory, SECTORS, SUPPLY) else {
        unreachable()
    };
    rewrite_and_cut(&mut disk, flushed, tear).unwrap()
}
