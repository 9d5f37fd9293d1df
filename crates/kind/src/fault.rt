// What is wrong with a setting, a bit field or an identifier that was handed in.
ghost use Rattle.std.specs.Prelude.{◌≡◌, Some};
ghost use Rattle.kind.specs.Fault.{number_of, setting_fault_text};

use std::error::Error;
use std::fmt;

// The item that is outside its range.
#[derive(Clone, Copy, PartialEq, Eq, Debug)]
pub enum SettingFault {
    BlockSize,
    Lease,
    Box,
    Correction,
    Milliseconds,
    Worker,
    Step,
    Identifier,
}

impl SettingFault {
    // The number under which the fault is told.
    pub fn number(self) -> u8
        ensures { result ≡ number_of self }
    {
        4
    }
}

// The range that the item is outside of.
impl fmt::Display for SettingFault {
    ghost output = { λ fault. Some (setting_fault_text fault) };

    fn fmt<W: fmt::Write>(&self, f: &mut fmt::Formatter<W>) -> fmt::Result {
        f.write_str(match self {
            SettingFault::BlockSize => "the block size is not from 1 to 10000",
            SettingFault::Lease => "the lease is not from 1 to 60000 milliseconds",
            SettingFault::Box => "the box number is not from 0 to 127",
            SettingFault::Correction => "the clock correction is not from 0 to 255",
            SettingFault::Milliseconds => "the milliseconds do not fit 41 bits",
            SettingFault::Worker => "the worker does not fit 10 bits",
            SettingFault::Step => "the step does not fit 12 bits",
            SettingFault::Identifier => "the identifier does not fit 63 bits",
        })
    }
}

impl Error for SettingFault {}
