// Why the server denied a call.
ghost use Rattle.std.specs.Prelude.{◌≡◌, Some};
ghost use Rattle.server.specs.Faults.{particulars, server_fault_text};
ghost use Rattle.server.specs.declared.fault.ServerFault.TheVariants.{Ring as OfRing};

use ring::{Particulars, RingFault};
use std::error::Error;
use std::fmt;

// A denial of the server.
#[derive(Clone, Copy, PartialEq, Eq, Debug)]
pub enum ServerFault {
    // The server is down since this fault.
    Down(RingFault),
    // No series has the number.
    Series(u8),
    // The reading has no floor.
    Reading,
    // The rank is above the kind's top.
    AboveTop,
    // The ring denied a reservation or its recovery.
    Ring(RingFault),
}

impl ServerFault {
    // What the denial tells.
    pub fn particulars(&self) -> Particulars
        ensures { result ≡ particulars self.now }
    {
        match *self {
            ServerFault::Down(_) => Particulars::numbered(7),
            ServerFault::Series(series) => Particulars {
                series: Some(series),
                ..Particulars::numbered(8)
            },
            ServerFault::Reading => Particulars::numbered(9),
            ServerFault::AboveTop => Particulars::numbered(10),
            ServerFault::Ring(fault) => fault.particulars(),
        }
    }

    // The number that the denial goes by.
    pub fn number(&self) -> u8
        ensures { result ≡ (particulars self.now).number }
    {
        self.particulars().number
    }

    // The sector, where the denial tells one.
    pub fn sector(&self) -> Option<usize>
        ensures { result ≡ (particulars self.now).sector }
    {
        self.particulars().sector
    }
}

impl fmt::Display for ServerFault {
    ghost output = { λ fault. Some (server_fault_text fault) };

    fn fmt<W: fmt::Write>(&self, f: &mut fmt::Formatter<W>) -> fmt::Result {
        match *self {
            ServerFault::Down(fault) => write!(f, "the server is down: {fault}"),
            ServerFault::Series(series) => write!(f, "there is no series {series}"),
            ServerFault::Reading => f.write_str("the clock's reading has no floor"),
            ServerFault::AboveTop => f.write_str("the rank is above the kind's top"),
            ServerFault::Ring(fault) => write!(f, "{fault}"),
        }
    }
}

impl Error for ServerFault {}

impl From<RingFault> for ServerFault {
    ghost from_gives = { λ f r. r ≡ OfRing f };

    fn from(denied: RingFault) -> ServerFault {
        ServerFault::Ring(denied)
    }
}
