// A reservation between its write and its flush.
ghost use Rattle.std.specs.Prelude.{◌≡◌, ℕ, ◌<◌, ◌⊎◌, MatchResult, IfSome, IfOk};
ghost use Rattle.record.specs.Sector.{encoded};
ghost use Rattle.disk.specs.Meaning.{answer_of, Wrote, Flushed};
ghost use Rattle.disk.specs.declared.fault.Operation.TheVariants.{Write, Flush};
ghost use Rattle.ring.specs.Ring.{known_ends};
ghost use Rattle.ring.specs.Token.{done, written_in, confirm, empty_block, empty_blocks, block_in, extend, fill, rank_of, draw, after_rank, after_draw, Holds, Covers};
ghost use Rattle.ring.specs.declared.fault.Work.TheVariants.{Reservation};

use crate::fault::{Interrupted, Work};
use crate::known::{Claim, Known};
use disk::{Disk, DiskFault};
use record::{Rank, Record, encode};

// A reservation whose record is written and not flushed: what it claims, the first rank that is newly reserved, and the
// sector of its record. No rank can be drawn from it, and it cannot be let go: it is confirmed by a flush, or given up.
pub struct Written {
    claim: Claim,
    start: Rank,
    sector: usize,
}

// A reservation whose flush was denied. It cannot be let go either.
pub struct Unconfirmed {
    written: Written,
    fault: DiskFault,
}

// A reservation that is flushed: the ranks of the series from the start up to below the end are newly reserved. Only
// `confirm` makes one. It is used up by filling blocks with it.
#[derive(PartialEq, Eq, Debug)]
pub struct Reserved {
    series: u8,
    start: Rank,
    end: Rank,
}

// The block in hand of a series: the next rank that it gives, and the first that it does not.
#[derive(Drop)]
struct Block {
    next: Rank,
    end: Rank,
}

// The blocks in hand of all eight series, in their order. They can neither be copied nor cloned, and a reservation fills
// the block of its own series, so that no rank comes out of two blocks.
#[derive(Drop)]
pub struct Blocks([Block; 8]);

// A rank that was drawn, with its series. Only blocks make one.
#[derive(Drop)]
pub struct Drawn {
    series: u8,
    rank: Rank,
}

impl Written {
    // Writes the record of a reservation into its sector. Nothing else makes a written reservation.
    pub(crate) fn write<D: Disk>(
        disk: &mut D,
        tag: u8,
        entry: Record,
        start: Rank,
        sector: usize,
    ) -> Result<Written, DiskFault>
        ensures answer { done result ≡ answer_of Write (D.meaning disk.old) sector }
        ensures written { IfOk result (λ w. w ≡ written_in entry start sector) }
        ensures effect { let m = D.meaning disk.old in
            let after = D.meaning disk.new in
            MatchResult result (λ _. Wrote m sector (encoded tag entry) after) (λ _. after ≡ m) }
        ensures moves { D.moves.writes disk.old sector (encoded tag entry) disk.new }
    {
        disk.write(sector, &encode(tag, entry))?;
        let claim = Claim::from(entry);
        Ok(Written {
            claim,
            start,
            sector,
        })
    }

    // Flushes the reservation. Where the disk denies that, the reservation comes back, to be given up.
    pub(crate) fn confirm<D: Disk>(self, disk: &mut D) -> Result<Reserved, Unconfirmed>
        ensures answer { let m = D.meaning disk.old in
            result ≡ confirm self (answer_of Flush m self.sector) }
        ensures effect { let m = D.meaning disk.old in
            let after = D.meaning disk.new in
            MatchResult result (λ _. Flushed m after) (λ _. after ≡ m) }
        ensures moves { D.moves.flushes disk.old self.sector disk.new }
    {
        // Each arm spends the token: it is taken apart, or handed on.
        match disk.flush(self.sector) {
            Ok(()) => {
                let Written {
                    claim,
                    start,
                    sector: _,
                } = self;
                let Claim { series, end } = claim;
                Ok(Reserved { series, start, end })
            }
            Err(fault) => Err(Unconfirmed {
                written: self,
                fault,
            }),
        }
    }
}

impl Unconfirmed {
    // Gives the reservation up: what was written may stand after a cut, or not.
    pub(crate) fn give_up(self) -> Interrupted
        ensures { let work = Reservation self.written.claim.series in
            result ≡ record { work = work; fault = self.fault } }
    {
        let Unconfirmed { written, fault } = self;
        let Written {
            claim,
            start: _,
            sector: _,
        } = written;
        Interrupted {
            work: Work::Reservation(claim.series),
            fault,
        }
    }
}

impl Reserved {
    // The series that has reserved.
    pub fn series(&self) -> u8
        ensures { result ≡ self.now.series }
    {
        self.series
    }
}

impl Block {
    // A block that gives no rank.
    fn empty(end: Rank) -> Block
        ensures { result ≡ empty_block end }
    {
        Block { next: end, end }
    }

    // Takes over the ranks from a start up to an end: it goes on where it ends at the start, and begins there otherwise.
    fn extend(&mut self, start: Rank, end: Rank)
        ensures { self.new ≡ extend start end self.old }
    {
        if self.end != start {
            self.next = self.next.max(start);
        }
        self.end = end;
    }

    // Gives the next rank, but none below a least one; none at or above the end.
    fn draw(&mut self, least: Rank) -> Option<Rank>
        ensures drawn { result ≡ rank_of least self.old }
        ensures rest { self.new ≡ after_rank result self.old }
    {
        let end = self.end.0;
        let rank = self.next.max(least);
        if rank.0 >= end {
            return None;
        }
        self.next = Rank(rank.0 + 1);
        Some(rank)
    }
}

impl Blocks {
    // Blocks that give no rank, each at the end that is known of its series.
    pub(crate) fn empty(known: Known) -> Blocks
        ensures { result ≡ empty_blocks (known_ends known) }
    {
        Blocks(known.lives.map(|live| Block::empty(live.end)))
    }

    // The next rank of a series, if that is below its end; 0 for a series above 7.
    pub fn next(&self, series: u8) -> Rank
        ensures { result ≡ (block_in self.now series).next }
    {
        if series >= 8 {
            return Rank(0);
        }
        self.0[usize::from(series)].next
    }

    // The end of a series: the first rank that it does not give; 0 for a series above 7.
    pub fn end(&self, series: u8) -> Rank
        ensures { result ≡ (block_in self.now series).end }
    {
        if series >= 8 {
            return Rank(0);
        }
        self.0[usize::from(series)].end
    }

    // Takes over the ranks that were reserved, into the block of their series.
    pub fn fill(&mut self, reserved: Reserved)
        ensures filled { self.new ≡ fill reserved self.old }
        ensures only { (s rank : ℕ) → Holds self.new s rank →
            Holds self.old s rank ⊎ Covers reserved s rank }
    {
        let Reserved { series, start, end } = reserved;
        if series < 8 {
            self.0[usize::from(series)].extend(start, end);
        }
    }

    // Draws the next rank of a series, but none below a least one; none at or above the end, none of a series above 7.
    pub fn draw(&mut self, series: u8, least: Rank) -> Option<Drawn>
        ensures drawn { result ≡ draw series least self.old }
        ensures rest { self.new ≡ after_draw result self.old }
        ensures held { IfSome result (λ d. Holds self.old d.series d.rank.0) }
        ensures once { IfSome result (λ d.
            (rank : ℕ) → Holds self.new d.series rank → d.rank.0 < rank) }
        ensures only { (s rank : ℕ) → Holds self.new s rank → Holds self.old s rank }
    {
        if series >= 8 {
            return None;
        }
        let rank = self.0[usize::from(series)].draw(least)?;
        Some(Drawn { series, rank })
    }
}

impl Drawn {
    // The series.
    pub fn series(&self) -> u8
        ensures { result ≡ self.now.series }
    {
        self.series
    }

    // The rank.
    pub fn rank(&self) -> Rank
        ensures { result ≡ self.now.rank }
    {
        self.rank
    }
}
