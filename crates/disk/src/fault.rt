// Why a disk denied a call.
ghost use Rattle.std.specs.Prelude.{◌≡◌, ◌-◌, Some};
ghost use Rattle.disk.specs.Faults.{cause_details, sector_told, name_of, cause_text, disk_fault_text};
ghost use Rattle.disk.specs.Meaning.{answered};

use std::error::Error;
use std::fmt;

// What was asked of the disk.
#[derive(Clone, Copy, PartialEq, Eq, Debug)]
pub enum Operation {
    Read,
    Write,
    Flush,
}

// The operation by name.
impl fmt::Display for Operation {
    ghost output = { λ operation. Some (name_of operation) };

    fn fmt<W: fmt::Write>(&self, f: &mut fmt::Formatter<W>) -> fmt::Result {
        f.write_str(match self {
            Operation::Read => "read",
            Operation::Write => "write",
            Operation::Flush => "flush",
        })
    }
}

// No sector has the number, or the current has failed.
#[derive(Clone, Copy, PartialEq, Eq, Debug)]
pub enum Cause {
    NoSector,
    Dark,
}

// A denied call: why, what was asked, and of which sector. A flush has the sector of the write that it settles.
#[derive(Clone, Copy, PartialEq, Eq, Debug)]
pub struct DiskFault {
    pub cause: Cause,
    pub operation: Operation,
    pub sector: usize,
}

impl Cause {
    // The number that a denial for this cause goes by.
    pub fn number(self) -> u8
        ensures { result ≡ (cause_details self).number }
    {
        match self {
            Cause::NoSector => 3,
            Cause::Dark => 12,
        }
    }

    // Whether a denial for this cause tells its sector. One of a sector that is not there does not.
    pub fn tells_sector(self) -> bool
        ensures { result ≡ (cause_details self).tells_sector }
    {
        match self {
            Cause::NoSector => false,
            Cause::Dark => true,
        }
    }
}

impl DiskFault {
    // The number that the denial goes by.
    pub fn number(&self) -> u8
        ensures { result ≡ (cause_details self.now.cause).number }
    {
        self.cause.number()
    }

    // The sector, where the denial tells it.
    pub fn sector_told(&self) -> Option<usize>
        ensures { result ≡ sector_told self.now }
    {
        self.cause.tells_sector().then_some(self.sector)
    }
}

// Why a call was denied.
impl fmt::Display for Cause {
    ghost output = { λ cause. Some (cause_text cause) };

    fn fmt<W: fmt::Write>(&self, f: &mut fmt::Formatter<W>) -> fmt::Result {
        f.write_str(match self {
            Cause::NoSector => "there is no such sector",
            Cause::Dark => "the current has failed",
        })
    }
}

// What was denied, of which sector, and why.
impl fmt::Display for DiskFault {
    ghost output = { λ fault. Some (disk_fault_text fault) };

    fn fmt<W: fmt::Write>(&self, f: &mut fmt::Formatter<W>) -> fmt::Result {
        let DiskFault {
            cause,
            operation,
            sector,
        } = *self;
        write!(f, "{operation} of sector {sector} denied: {cause}")
    }
}

impl Error for Cause {}

impl Error for DiskFault {}

// One write or flush out of the supply: what is left of it.
pub(crate) fn admit(
    operation: Operation,
    sector: usize,
    sectors: usize,
    supply: u64,
) -> Result<u64, DiskFault>
    ensures { result ≡ answered (supply - 1) operation sectors supply sector }
{
    if sector >= sectors {
        return Err(DiskFault {
            cause: Cause::NoSector,
            operation,
            sector,
        });
    }
    if supply == 0 {
        return Err(DiskFault {
            cause: Cause::Dark,
            operation,
            sector,
        });
    }
    Ok(supply - 1)
}
