// Time-sequenced identifiers: a rank is a millisecond and a step within it.
ghost use Rattle.std.specs.Prelude.{◌≡◌};
ghost use Rattle.kind.specs.Range.{IsWithin};
ghost use Rattle.kind.specs.declared.time.TheConstants.{LONGEST, LAST_BOX};

use crate::fault::SettingFault;
use crate::meaning::Kind;
use crate::snowflake::{Parts, pack};
use record::{Identifier, Rank, Reading};

// How many steps a millisecond has.
const STEPS: u64 = 4096;

// The longest lease, in milliseconds.
const LONGEST: u64 = 60_000;

// The highest number of a box.
const LAST_BOX: u64 = 127;

// What these numbers are.
pub fn time_limits()
    ensures { (STEPS ≡ 4096) × (LONGEST ≡ 60000) × (LAST_BOX ≡ 127) }
{}

// The time that the ranks of one reservation last, in milliseconds.
#[derive(Clone, Copy, PartialEq, Eq, Debug)]
pub struct Lease {
    milliseconds: u64,
    ghost in_range: { IsWithin 1 LONGEST milliseconds },
}

impl Lease {
    ghost use Rattle.kind.specs.Time.{lease_of};

    // A lease of 1 to 60,000 milliseconds; any other is denied. The test is its own, as that of a serial kind.
    pub fn new(milliseconds: u64) -> Result<Lease, SettingFault>
        ensures { result ≡ lease_of milliseconds }
    {
        if !(1..=LONGEST).contains(&milliseconds) {
            return Err(SettingFault::Lease);
        }
        Ok(Lease { milliseconds })
    }
}

// By how many seconds the clock is to be set right: a byte that holds a two's complement number.
#[derive(Clone, Copy, PartialEq, Eq, Debug)]
pub struct Correction(pub u8);

impl Correction {
    ghost use Rattle.kind.specs.Time.{correction_of, corrected_by, seconds_of};

    // The correction in a byte of 0 to 255; any other number is denied.
    pub fn new(byte: u64) -> Result<Correction, SettingFault>
        ensures { result ≡ correction_of byte }
    {
        u8::try_from(byte)
            .map(Correction)
            .map_err(|_| SettingFault::Correction)
    }

    // The number in the byte, from -128 to 127.
    pub fn seconds(self) -> i64
        ensures { result ≡ seconds_of self }
    {
        i64::from(self.0.cast_signed())
    }

    // The reading set right; none where that is below 0 or above 2^41 - 1.
    fn apply(self, raw: Reading) -> Option<Reading>
        ensures { result ≡ corrected_by self raw }
    {
        let milliseconds = raw.0.checked_add_signed(1000 * self.seconds())?;
        (milliseconds < 1 << 41).then_some(Reading(milliseconds))
    }
}

// The time kind of one box.
#[derive(Clone, Copy, PartialEq, Eq, Debug)]
pub struct TimeKind {
    lease: Lease,
    box_number: u64,
    correction: Correction,
    ghost in_range: { IsWithin 0 LAST_BOX box_number },
}

impl TimeKind {
    ghost use Rattle.kind.specs.Time.{time_kind_of};

    // The kind of a box with a number of 0 to 127; any other is denied.
    pub fn new(
        lease: Lease,
        box_number: u64,
        correction: Correction,
    ) -> Result<TimeKind, SettingFault>
        ensures { result ≡ time_kind_of lease box_number correction }
    {
        if box_number > LAST_BOX {
            return Err(SettingFault::Box);
        }
        Ok(TimeKind {
            lease,
            box_number,
            correction,
        })
    }
}

impl Kind for TimeKind {
    ghost use Rattle.kind.specs.Time.{time_numbering};
    ghost use Rattle.std.proofs.Common.{rules};

    ghost numbering = { time_numbering };

    ghost lawful = { Prim.search rules };

    fn tag(&self) -> u8 {
        2
    }

    fn top(&self) -> Rank {
        Rank((1 << 53) - 1)
    }

    fn block_size(&self) -> u64 {
        STEPS * self.lease.milliseconds
    }

    fn floor(&self, reading: Reading) -> Option<Rank> {
        let corrected = self.correction.apply(reading)?;
        Some(Rank(STEPS * corrected.0))
    }

    fn identifier(&self, series: u8, rank: Rank) -> Option<Identifier> {
        if series > 7 || rank > self.top() {
            return None;
        }
        let parts = Parts {
            milliseconds: rank.0 / STEPS,
            worker: 8 * self.box_number + u64::from(series),
            step: rank.0 % STEPS,
        };
        pack(parts).ok()
    }
}
