// The kinds of identifier that a request file may choose.
ghost use Rattle.simulator.specs.Kinds.{numbering_of};
ghost use Rattle.std.proofs.Common.{rules};

use kind::{Kind, SerialKind, TimeKind};
use record::{Identifier, Rank, Reading};

// One of the kinds.
#[derive(Clone, Copy)]
pub enum AnyKind {
    Serial(SerialKind),
    Time(TimeKind),
}

// Each method matches for itself: the gate refuses a function that hands out a `&dyn Kind`.
impl Kind for AnyKind {
    ghost numbering = { numbering_of };

    ghost lawful = { Prim.search rules };

    fn tag(&self) -> u8 {
        match self {
            AnyKind::Serial(kind) => kind.tag(),
            AnyKind::Time(kind) => kind.tag(),
        }
    }

    fn top(&self) -> Rank {
        match self {
            AnyKind::Serial(kind) => kind.top(),
            AnyKind::Time(kind) => kind.top(),
        }
    }

    fn block_size(&self) -> u64 {
        match self {
            AnyKind::Serial(kind) => kind.block_size(),
            AnyKind::Time(kind) => kind.block_size(),
        }
    }

    fn floor(&self, reading: Reading) -> Option<Rank> {
        match self {
            AnyKind::Serial(kind) => kind.floor(reading),
            AnyKind::Time(kind) => kind.floor(reading),
        }
    }

    fn identifier(&self, series: u8, rank: Rank) -> Option<Identifier> {
        match self {
            AnyKind::Serial(kind) => kind.identifier(series, rank),
            AnyKind::Time(kind) => kind.identifier(series, rank),
        }
    }
}
