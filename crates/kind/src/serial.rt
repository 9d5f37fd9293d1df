// Serial identifiers: 1, 2, 3 and so on, whatever the clock says.
ghost use Rattle.std.specs.Prelude.{◌≡◌};
ghost use Rattle.kind.specs.Range.{IsWithin};
ghost use Rattle.kind.specs.declared.serial.TheConstants.{LARGEST};

use crate::fault::SettingFault;
use crate::meaning::Kind;
use record::{Identifier, Rank, Reading};

// The largest block.
const LARGEST: u64 = 10_000;

// What the number is.
pub fn serial_limits()
    ensures { LARGEST ≡ 10000 }
{}

// The serial kind, with the size of its blocks.
#[derive(Clone, Copy, PartialEq, Eq, Debug)]
pub struct SerialKind {
    size: u64,
    ghost in_range: { IsWithin 1 LARGEST size },
}

impl SerialKind {
    ghost use Rattle.kind.specs.Serial.{serial_kind_of};

    // The kind with blocks of 1 to 10,000 ranks; any other size is denied. The test is its own, as in the other constructors: a
    // shared one would be called by as much text.
    pub fn new(size: u64) -> Result<SerialKind, SettingFault>
        ensures { result ≡ serial_kind_of size }
    {
        if !(1..=LARGEST).contains(&size) {
            return Err(SettingFault::BlockSize);
        }
        Ok(SerialKind { size })
    }
}

impl Kind for SerialKind {
    ghost use Rattle.kind.specs.Serial.{serial_numbering};
    ghost use Rattle.std.proofs.Common.{rules};

    ghost numbering = { serial_numbering };

    ghost lawful = { Prim.search rules };

    fn tag(&self) -> u8 {
        1
    }

    fn top(&self) -> Rank {
        Rank(999_999_998)
    }

    fn block_size(&self) -> u64 {
        self.size
    }

    fn floor(&self, _reading: Reading) -> Option<Rank> {
        Some(Rank(0))
    }

    fn identifier(&self, series: u8, rank: Rank) -> Option<Identifier> {
        if series > 7 || rank > self.top() {
            return None;
        }
        Some(Identifier(rank.0 + 1))
    }
}
