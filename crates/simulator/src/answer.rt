// What a request line is answered with.
ghost use Rattle.std.specs.Prelude.{◌≡◌, Some};
ghost use Rattle.simulator.specs.Answers.{coded, of_server, denial_columns, denial_text, ends, columns_of, shown};
ghost use Rattle.simulator.specs.declared.answer.Denial.TheVariants.{Malformed, Setting};

use crate::request::Item;
use kind::SettingFault;
use record::{Identifier, Sequence};
use server::ServerFault;
use std::error::Error;
use std::fmt;

// A line that was taken and not denied.
#[derive(Clone, Copy, PartialEq, Eq, Debug)]
pub enum Answer {
    // The device, the kind or the box was set.
    Set,
    // An identifier of a series was given.
    Given { series: u64, identifier: Identifier },
    // The power was cut: the top record after the fresh start.
    Woken(Sequence),
}

// A line that was denied.
#[derive(Clone, Copy, PartialEq, Eq, Debug)]
pub enum Denial {
    // The print line has no room for a print: the request is not taken.
    ShortPrint,
    // An item of the request line is wrong.
    Malformed(Item),
    // The run has ended.
    Ended,
    // The line's number is above 999,999.
    TooMany,
    // The sector count is not 10 to 2,048, or the memory is too short for it.
    Size,
    // No device has the number.
    NoDevice,
    // A setting is out of its range.
    Setting(SettingFault),
    // The server denied an identifier of a series.
    NotGiven { series: u64, fault: ServerFault },
    // The server is down after a cut.
    NotWoken(ServerFault),
}

// What is printed after the line's number: the series, the code and the last number.
#[derive(Clone, Copy, PartialEq, Eq, Debug)]
pub struct Columns {
    pub series: u64,
    pub code: u8,
    pub last: u64,
}

impl Columns {
    // A code, and 0 beside it.
    fn coded(code: u8) -> Columns
        ensures { result ≡ coded code }
    {
        Columns {
            series: 0,
            code,
            last: 0,
        }
    }

    // The number of a server's denial, and its sector where it tells one.
    fn of_server(fault: ServerFault) -> Columns
        ensures { result ≡ of_server fault }
    {
        let told = fault.particulars();
        Columns {
            last: told.sector.unwrap_or(0) as u64,
            ..Columns::coded(told.number)
        }
    }
}

impl Denial {
    // What is printed of the denial.
    fn columns(&self) -> Columns
        ensures { result ≡ denial_columns self.now }
    {
        match *self {
            Denial::ShortPrint => Columns::coded(1),
            Denial::Malformed(item) => Columns {
                last: item.column(),
                ..Columns::coded(2)
            },
            Denial::Ended | Denial::TooMany => Columns::coded(2),
            Denial::Size => Columns::coded(3),
            Denial::NoDevice => Columns::coded(4),
            Denial::Setting(fault) => Columns::coded(fault.number()),
            Denial::NotGiven { series, fault } => Columns {
                series: shown(series),
                ..Columns::of_server(fault)
            },
            Denial::NotWoken(fault) => Columns::of_server(fault),
        }
    }

    // The number that the denial goes by.
    pub fn number(&self) -> u8
        ensures { result ≡ (denial_columns self.now).code }
    {
        self.columns().code
    }

    // Whether the denial ends the run.
    pub fn ends_run(&self) -> bool
        ensures { result ≡ ends self.now }
    {
        matches!(self.number(), 2..=6)
    }
}

// What was denied, and why.
impl fmt::Display for Denial {
    ghost output = { λ denial. Some (denial_text denial) };

    fn fmt<W: fmt::Write>(&self, f: &mut fmt::Formatter<W>) -> fmt::Result {
        match *self {
            Denial::ShortPrint => f.write_str("the print line has fewer than 34 bytes"),
            Denial::Malformed(item) => write!(f, "the request line is wrong: {item}"),
            Denial::Ended => f.write_str("the run has ended"),
            Denial::TooMany => f.write_str("the line's number is above 999999"),
            Denial::Size => f.write_str(
                "a disk has 10 to 2048 sectors, and the memory must have room for them",
            ),
            Denial::NoDevice => f.write_str(
                "there is no device but 0, the faithful disk, and 1, the torn one",
            ),
            Denial::Setting(fault) => write!(f, "{fault}"),
            Denial::NotGiven { series, fault } => {
                write!(f, "no identifier of series {series}: {fault}")
            }
            Denial::NotWoken(fault) => write!(f, "no server after the power cut: {fault}"),
        }
    }
}

impl Error for Denial {}

// A series as it is printed: 0 for one above 7.
fn shown(series: u64) -> u64
    ensures { result ≡ shown series }
{
    if series < 8 { series } else { 0 }
}

// The columns of a line's answer.
pub fn columns_of(answer: Result<Answer, Denial>) -> Columns
    ensures { result ≡ columns_of answer }
{
    match answer {
        Ok(Answer::Set) => Columns::coded(0),
        Ok(Answer::Given { series, identifier }) => Columns {
            series: shown(series),
            last: identifier.0,
            ..Columns::coded(0)
        },
        Ok(Answer::Woken(top)) => Columns {
            last: top.0,
            ..Columns::coded(0)
        },
        Err(denial) => denial.columns(),
    }
}

impl From<Item> for Denial {
    ghost from_gives = { λ f r. r ≡ Malformed f };

    fn from(item: Item) -> Denial {
        Denial::Malformed(item)
    }
}

impl From<SettingFault> for Denial {
    ghost from_gives = { λ f r. r ≡ Setting f };

    fn from(fault: SettingFault) -> Denial {
        Denial::Setting(fault)
    }
}
