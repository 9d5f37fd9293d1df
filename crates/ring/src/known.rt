// What the ring knows of its sectors.
ghost use Rattle.std.specs.Prelude.{◌≡◌, length, slice_set};
ghost use Rattle.ring.specs.Ring.{newer, live_of, meet, note, next_known, carry_of, live_among, is_live_by, holds_live_by, known_end};

use record::{Content, Rank, Record, Sequence};

// The live record of a series: its number and its end. Both are 0 where there is none: such a series has the end 0, and
// no record has the number 0.
#[derive(Clone, Copy)]
pub struct Live {
    pub number: Sequence,
    pub end: Rank,
}

// The highest number of any record, 0 without one, and the live record of each series.
#[derive(Clone, Copy)]
pub struct Known {
    pub top: Sequence,
    pub lives: [Live; 8],
}

// What a record is to claim: the series, and its new end. No rank is drawn from it, but from blocks that were filled
// with a `Reserved`, which is flushed.
#[derive(Clone, Copy)]
pub(crate) struct Claim {
    pub(crate) series: u8,
    pub(crate) end: Rank,
}

// What a record that is carried claims anew.
impl From<Record> for Claim {
    ghost from_gives = { λ entry claim. claim ≡ record { series = entry.series; end = entry.end } };

    fn from(entry: Record) -> Claim {
        Claim {
            series: entry.series,
            end: entry.end,
        }
    }
}

// A record as the live one of its series.
impl From<Record> for Live {
    ghost from_gives = { λ entry live. live ≡ live_of entry };

    fn from(entry: Record) -> Live {
        Live {
            number: entry.sequence,
            end: entry.end,
        }
    }
}

impl Live {
    // No live record.
    const NONE: Live = Live {
        number: Sequence(0),
        end: Rank(0),
    };
}

// The one of the higher number, and the first where they are equal, where max_by_key would take the second.
fn newest(a: Live, b: Live) -> Live
    ensures { result ≡ newer a b }
{
    if a.number < b.number { b } else { a }
}

impl Known {
    // Nothing is known yet.
    pub(crate) const NOTHING: Known = Known {
        top: Sequence(0),
        lives: [Live::NONE; 8],
    };

    // The live record of a series; none for a series above 7.
    fn live(self, series: u8) -> Live
        ensures { result ≡ live_among self.lives series }
    {
        self.lives
            .get(usize::from(series))
            .copied()
            .unwrap_or(Live::NONE)
    }

    // The end of a series; 0 without a record, and for a series above 7.
    pub(crate) fn end(self, series: u8) -> Rank
        ensures { result ≡ known_end self series }
    {
        self.live(series).end
    }

    // The live records, with another one for a series; as they are for a series above 7.
    #[tactic(auto, using(std::proofs::lemmas::List::set_past))]
    fn with_live(self, series: u8, live: Live) -> [Live; 8]
        ensures { result ≡ slice_set self.lives series live }
    {
        let mut lives = self.lives;
        if series < 8 {
            lives[usize::from(series)] = live;
        }
        lives
    }

    // What is known once one record more is met.
    pub(crate) fn meet(self, entry: Record) -> Known
        ensures { result ≡ meet self entry }
    {
        let live = newest(self.live(entry.series), Live::from(entry));
        Known {
            top: self.top.max(entry.sequence),
            lives: self.with_live(entry.series, live),
        }
    }

    // What is known once a record is written that is newer than all others.
    pub(crate) fn note(self, entry: Record) -> Known
        ensures { result ≡ note self entry }
    {
        Known {
            top: entry.sequence,
            lives: self.with_live(entry.series, Live::from(entry)),
        }
    }

    // The next record.
    pub(crate) fn next(self, claim: Claim) -> Record
        ensures { result ≡ next_known self claim.series claim.end }
    {
        Record {
            series: claim.series,
            sequence: Sequence(self.top.0.saturating_add(1)),
            end: claim.end,
        }
    }

    // The record that has to be carried out of a sector before the series reserves: the live one of another series, no
    // newer than the start of the search.
    pub(crate) fn to_carry(self, series: u8, start: Sequence, content: Content) -> Option<Record>
        ensures value { result ≡ carry_of self series start.0 content }
        ensures eight { length self.lives ≡ 8 }
    {
        match content {
            Content::Record(entry)
                if entry.series != series && self.is_live(entry) && entry.sequence <= start => {
                Some(entry)
            }
            _ => None,
        }
    }

    // Whether a record is the live one of its series.
    pub(crate) fn is_live(self, entry: Record) -> bool
        ensures { result ≡ is_live_by self entry }
    {
        entry.series < 8 && entry.sequence == self.live(entry.series).number
    }

    // Whether a sector holds a live record.
    pub(crate) fn holds_live(self, content: Content) -> bool
        ensures { result ≡ holds_live_by self content }
    {
        matches!(content, Content::Record(entry) if self.is_live(entry))
    }
}
