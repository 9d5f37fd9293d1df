// Whether the server is up, and what it has in hand.
ghost use Rattle.std.specs.Prelude.{◌≡◌, nat_lt, IfOk};
ghost use Rattle.ring.specs.Operations.{Chain};
ghost use Rattle.ring.specs.Ring.{Agrees};
ghost use Rattle.ring.specs.Token.{block_in, draw, fill, after_draw};
ghost use Rattle.server.specs.Rules.{awake, with_blocks, is_fatal, ready_tries, reserve_tries, Ready, Took};

use disk::Disk;
use record::Rank;
use ring::{Blocks, Drawn, Reserved, Ring, RingFault};

// A server that is up: its ring, and the blocks in hand of all series.
#[derive(Drop)]
pub struct Up {
    pub(crate) ring: Ring,
    pub(crate) blocks: Blocks,
}

// Up, or down with the fault that brought the server down. It has the shape of a Result and names of its own: a server that is
// down is no failed answer.
#[derive(Drop)]
pub enum State {
    Up(Up),
    Down(RingFault),
}

impl Up {
    ghost use Rattle.server.specs.Knows.{KnowsEnds};

    // The next rank of a series.
    pub(crate) fn next(&self, series: u8) -> Rank
        ensures { result ≡ (block_in self.now.blocks series).next }
    {
        self.blocks.next(series)
    }

    // Draws a rank of a series, none below a least one.
    pub(crate) fn draw(&mut self, series: u8, least: Rank) -> Option<Drawn>
        ensures drawn { result ≡ draw series least self.old.blocks }
        ensures rest { self.new ≡ with_blocks self.old (after_draw result self.old.blocks) }
    {
        self.blocks.draw(series, least)
    }

    // Takes the ranks that were reserved in hand.
    pub(crate) fn take(&mut self, reserved: Reserved)
        ensures { self.new ≡ with_blocks self.old (fill reserved self.old.blocks) }
    {
        self.blocks.fill(reserved);
    }

    // Reserves up to a new end, and takes the block in hand.
    #[tactic(auto, using(crate::proofs::Requests::took_well, crate::proofs::Requests::took_none))]
    pub(crate) fn extend<D: Disk>(
        &mut self,
        disk: &mut D,
        series: u8,
        end: Rank,
    ) -> Result<(), RingFault>
        requires agrees { Agrees self.old.ring (D.meaning disk.old) }
        requires ends { KnowsEnds self.old }
        ensures took { let m = D.meaning disk.old in
            Took self.old m series end result self.new (D.meaning disk.new) }
        ensures ends { IfOk result (λ _. KnowsEnds self.new) }
        ensures moves { let ring = self.old.ring in
            Chain D.moves disk.old (reserve_tries ring (D.meaning disk.old) series end) disk.new }
    {
        let reserved = self.ring.reserve(disk, series, end)?;
        self.take(reserved);
        Ok(())
    }

    // Has a block in hand that ends above a rank: the one that it has, or one that it reserves up to a new end.
    pub(crate) fn ready<D: Disk>(
        &mut self,
        disk: &mut D,
        series: u8,
        rank: Rank,
        end: Rank,
    ) -> Result<(), RingFault>
        requires agrees { Agrees self.old.ring (D.meaning disk.old) }
        requires ends { KnowsEnds self.old }
        ensures ready { let ends_above = nat_lt rank.0 (block_in self.old.blocks series).end.0 in
            let m = D.meaning disk.old in
            Ready ends_above self.old m series end result self.new (D.meaning disk.new) }
        ensures ends { IfOk result (λ _. KnowsEnds self.new) }
        ensures moves { let ends_above = nat_lt rank.0 (block_in self.old.blocks series).end.0 in
            let m = D.meaning disk.old in
            Chain D.moves disk.old (ready_tries ends_above self.old.ring m series end) disk.new }
    {
        if rank < self.blocks.end(series) {
            return Ok(());
        }
        self.extend(disk, series, end)
    }
}

// Whether a denial of the ring brings the server down: numbers that run short do not.
pub(crate) fn brings_down(fault: RingFault) -> bool
    ensures { result ≡ is_fatal fault }
{
    !matches!(fault, RingFault::Exhausted)
}

// Waking: the blocks in hand are empty, each next rank is the series' end.
pub(crate) fn wake(recovered: Result<Ring, RingFault>) -> State
    ensures { result ≡ awake recovered }
{
    match recovered {
        Ok(ring) => State::Up(Up {
            ring,
            blocks: ring.blocks(),
        }),
        Err(fault) => State::Down(fault),
    }
}
