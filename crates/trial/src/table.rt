// The trials of every tear, and how many of them left what.
ghost use Rattle.std.specs.Prelude.{◌≡◌, T, map, IfOk, Some};
ghost use Rattle.record.specs.declared.sector.Content.TheVariants.{Record as Holds};
ghost use Rattle.std.specs.List.{range_with_len, AllByRecursion};
ghost use Rattle.trial.specs.Trial.{newer, OneOfThree};
ghost use Rattle.trial.specs.Table.{trial_of, leaves, how_many, newer_stands, line_of};

use crate::cut::{left_by, newer, older};
use disk::{LatestWrite, WriteThrough};
use record::Content;
use std::alloc::{AllocError, Global};
use std::fmt;

// The tears that differ: 0 to 32 of the write's 32 bytes have reached the disk.
const TEARS: u64 = 33;

// The disk of a trial.
#[derive(Clone, Copy, PartialEq, Eq, Debug)]
pub enum Device {
    Torn,
    Faithful,
}

// One trial: on which disk, whether a flush came before the cut, the tear, and what the sector then held.
#[derive(Clone, Copy, PartialEq, Eq, Debug)]
pub struct Trial {
    pub device: Device,
    pub flushed: bool,
    pub tear: u64,
    pub left: Content,
}

// What can become of the two records: one of them stands, or the sector is blank.
#[derive(Clone, Copy, PartialEq, Eq, Debug)]
pub enum Outcome {
    Older,
    Newer,
    Blank,
}

impl Outcome {
    // Whether a sector was left so. A record is told by its sequence number.
    pub fn is_of(self, left: Content) -> bool
        ensures { result ≡ leaves self left }
    {
        match (self, left) {
            (Outcome::Older, Content::Record(record)) => record.sequence == older().sequence,
            (Outcome::Newer, Content::Record(record)) => record.sequence == newer().sequence,
            (Outcome::Blank, Content::Blank) => true,
            _ => false,
        }
    }
}

// The trial of one tear.
pub fn cut_at(device: Device, flushed: bool, tear: u64) -> Trial
    ensures value { result ≡ trial_of device flushed tear }
    ensures one_of_three { OneOfThree result.left }
    ensures settled { T (newer_stands device flushed) → result.left ≡ Holds newer }
{
    let left = match device {
        Device::Torn => left_by::<LatestWrite>(flushed, tear),
        Device::Faithful => left_by::<WriteThrough>(flushed, tear),
    };
    Trial {
        device,
        flushed,
        tear,
        left,
    }
}

// The trials of all tears, from 0 to 32.
pub fn trials(heap: Global, device: Device, flushed: bool) -> Result<Vec<Trial>, AllocError>
    ensures table { IfOk result
        (λ v. v.items ≡ map (trial_of device flushed) (range_with_len 0 33)) }
    ensures one_of_three { IfOk result (λ v. AllByRecursion (λ t. OneOfThree t.left) v.items) }
{
    (0..TEARS)
        .map(|tear| cut_at(device, flushed, tear))
        .collect(heap)
}

// How many trials had this outcome.
pub fn count(trials: &[Trial], outcome: Outcome) -> usize
    ensures { result ≡ how_many outcome trials.now }
{
    trials
        .iter()
        .filter(|trial| outcome.is_of(trial.left))
        .count()
}

// A line for a reader: the tear, and what the sector reads as.
impl fmt::Display for Trial {
    ghost output = { λ trial. Some (line_of trial) };

    fn fmt<W: fmt::Write>(&self, f: &mut fmt::Formatter<W>) -> fmt::Result {
        let tear = self.tear;
        match self.left {
            Content::Blank => write!(f, "tear {tear:>2}: blank"),
            Content::Foreign => write!(f, "tear {tear:>2}: foreign"),
            Content::Record(record) => {
                let name = if Outcome::Older.is_of(self.left) {
                    "older"
                } else if Outcome::Newer.is_of(self.left) {
                    "newer"
                } else {
                    "another"
                };
                let sequence = record.sequence.0;
                let end = record.end.0;
                write!(
                    f,
                    "tear {tear:>2}: {name} record, sequence number {sequence}, end {end}"
                )
            }
        }
    }
}
