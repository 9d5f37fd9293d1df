// Why the ring denied a call.
ghost use Rattle.std.specs.Prelude.{◌≡◌, Some};
ghost use Rattle.ring.specs.Faults.{with_work, numbered, of_disk, particulars, series_of, work_text, interrupted_text, ring_fault_text};
ghost use Rattle.ring.specs.declared.fault.RingFault.TheVariants.{Disk, Interrupted as Stopped};

use disk::{DiskFault, Operation};
use record::Rank;
use std::error::Error;
use std::fmt;

// What was being written: a copy of another series' live record, or the reservation itself; and for which series.
#[derive(Clone, Copy, PartialEq, Eq, Debug)]
pub enum Work {
    Carry(u8),
    Reservation(u8),
}

// A disk's denial, with the work that it stopped.
#[derive(Clone, Copy, PartialEq, Eq, Debug)]
pub struct Interrupted {
    pub work: Work,
    pub fault: DiskFault,
}

// A denial of the ring.
#[derive(Clone, Copy, PartialEq, Eq, Debug)]
pub enum RingFault {
    // The disk has fewer than 10 or more than 2,048 sectors.
    Size(usize),
    // A sector is sound and no record of this ring.
    Foreign(usize),
    // The sector that the next record is to go to holds a live record.
    LiveInGap(usize),
    // No series has the number.
    Series(u8),
    // A reservation may end at 1 to the kind's top + 1.
    End(Rank),
    // Sequence numbers run short.
    Exhausted,
    // The disk denied a read.
    Disk(DiskFault),
    // The disk denied a write or a flush.
    Interrupted(Interrupted),
}

// What a denial tells: its number and, as far as it has them, the operation that was denied, the sector, the work that
// was stopped, and the series.
#[derive(Clone, Copy, PartialEq, Eq, Debug)]
pub struct Particulars {
    pub number: u8,
    pub operation: Option<Operation>,
    pub sector: Option<usize>,
    pub work: Option<Work>,
    pub series: Option<u8>,
}

impl Work {
    // The series that is written for.
    pub fn series(self) -> u8
        ensures { result ≡ series_of self }
    {
        match self {
            Work::Carry(series) | Work::Reservation(series) => series,
        }
    }
}

impl Particulars {
    // A number, and nothing beside it.
    pub fn numbered(number: u8) -> Particulars
        ensures { result ≡ numbered number }
    {
        Particulars {
            number,
            operation: None,
            sector: None,
            work: None,
            series: None,
        }
    }
}

// What a disk's denial tells.
impl From<DiskFault> for Particulars {
    ghost from_gives = { λ f r. r ≡ of_disk f };

    fn from(fault: DiskFault) -> Particulars {
        Particulars {
            operation: Some(fault.operation),
            sector: fault.sector_told(),
            ..Particulars::numbered(fault.number())
        }
    }
}

impl RingFault {
    // What the denial tells.
    pub fn particulars(&self) -> Particulars
        ensures { result ≡ particulars self.now }
    {
        match *self {
            RingFault::Size(_) => Particulars::numbered(3),
            RingFault::Foreign(sector) => Particulars {
                sector: Some(sector),
                ..Particulars::numbered(5)
            },
            RingFault::LiveInGap(sector) => Particulars {
                sector: Some(sector),
                ..Particulars::numbered(6)
            },
            RingFault::Series(series) => Particulars {
                series: Some(series),
                ..Particulars::numbered(8)
            },
            RingFault::End(_) => Particulars::numbered(4),
            RingFault::Exhausted => Particulars::numbered(11),
            RingFault::Disk(fault) => Particulars::from(fault),
            RingFault::Interrupted(Interrupted { work, fault }) => Particulars {
                work: Some(work),
                series: Some(work.series()),
                ..Particulars::from(fault)
            },
        }
    }

    // The number that the denial goes by.
    pub fn number(&self) -> u8
        ensures { result ≡ (particulars self.now).number }
    {
        self.particulars().number
    }

    // The sector, where the denial tells one.
    pub fn sector(&self) -> Option<usize>
        ensures { result ≡ (particulars self.now).sector }
    {
        self.particulars().sector
    }
}

impl From<DiskFault> for RingFault {
    ghost from_gives = { λ f r. r ≡ Disk f };

    fn from(fault: DiskFault) -> RingFault {
        RingFault::Disk(fault)
    }
}

impl From<Interrupted> for RingFault {
    ghost from_gives = { λ f r. r ≡ Stopped f };

    fn from(stopped: Interrupted) -> RingFault {
        RingFault::Interrupted(stopped)
    }
}

// The work by name, and its series.
impl fmt::Display for Work {
    ghost output = { λ work. Some (work_text work) };

    fn fmt<W: fmt::Write>(&self, f: &mut fmt::Formatter<W>) -> fmt::Result {
        match *self {
            Work::Carry(series) => write!(f, "carry of series {series}"),
            Work::Reservation(series) => write!(f, "reservation of series {series}"),
        }
    }
}

// The work, and what the disk denied.
impl fmt::Display for Interrupted {
    ghost output = { λ stopped. Some (interrupted_text stopped) };

    fn fmt<W: fmt::Write>(&self, f: &mut fmt::Formatter<W>) -> fmt::Result {
        let Interrupted { work, fault } = *self;
        write!(f, "{work} stopped: {fault}")
    }
}

// What was denied, and why.
impl fmt::Display for RingFault {
    ghost output = { λ fault. Some (ring_fault_text fault) };

    fn fmt<W: fmt::Write>(&self, f: &mut fmt::Formatter<W>) -> fmt::Result {
        match *self {
            RingFault::Size(sectors) => write!(f, "a disk has 10 to 2048 sectors, not {sectors}"),
            RingFault::Foreign(sector) => {
                write!(f, "sector {sector} is sound and no record of this server")
            }
            RingFault::LiveInGap(sector) => {
                write!(
                    f,
                    "sector {sector} is to be written next and holds a live record"
                )
            }
            RingFault::Series(series) => write!(f, "there is no series {series}"),
            RingFault::End(end) => {
                let end = end.0;
                write!(f, "no reservation ends at {end}")
            }
            RingFault::Exhausted => f.write_str("sequence numbers run short"),
            RingFault::Disk(fault) => write!(f, "{fault}"),
            RingFault::Interrupted(stopped) => write!(f, "{stopped}"),
        }
    }
}

impl Error for Interrupted {}

impl Error for RingFault {}

// What the disk answered, a denial with the work that it stopped.
pub(crate) fn during(work: Work, answer: Result<(), DiskFault>) -> Result<(), Interrupted>
    ensures { result ≡ with_work work answer }
{
    answer.map_err(|fault| Interrupted { work, fault })
}
