// The ring over any disk.
ghost use Rattle.std.specs.Prelude.{◌≡◌, ◌+◌, ◌^◌, ◌<◌, ◌≤◌, IfOk, IfErr, Some, None, Ok, Err, MatchResult, slice_set};
ghost use Rattle.ring.specs.Token.{done, empty_blocks, block_nexts, block_ends};
ghost use Rattle.ring.specs.Left.{end_of, EndsAre, AtMostSoMany, ReservationLaws, TopsCounted};
ghost use Rattle.ring.specs.Faults.{with_work};
ghost use Rattle.disk.specs.Meaning.{Meaning, count, answer_of};
ghost use Rattle.disk.specs.declared.fault.Operation.TheVariants.{Write};
ghost use Rattle.ring.specs.Operations.{Writes};
ghost use Rattle.ring.specs.Runs.{look, known_carry, Appends, RunsUnlessRefused, RunsShort, RunsClear, RunsStopped, RunsWritten};
ghost use Rattle.ring.specs.Search.{Tried, Ended, refusal, admit};
ghost use Rattle.ring.specs.declared.fault.Work.TheVariants.{Carry, Reservation};
ghost use Rattle.record.specs.Sector.{content, encoded};
ghost use Rattle.ring.specs.Ring.{sector_of, known_gap, next_of, top, scan, foreign_below, recover, known_end, known_ends, Agrees};

use crate::fault::{Interrupted, RingFault, Work, during};
use crate::known::{Claim, Known};
use crate::token::{Blocks, Reserved, Unconfirmed, Written};
use disk::{Disk, DiskFault, LEAST_SECTORS, MOST_SECTORS};
use record::{Content, Format, LAST_SEQUENCE, Rank, Record, Sequence, classify, encode};

// The format of the records, and what is known of them.
#[derive(Clone, Copy)]
pub struct Ring {
    pub(crate) format: Format,
    pub(crate) known: Known,
}

// The sector that a sequence number names; the first where there is no sector.
fn sector_of(number: u64, sectors: usize) -> usize
    ensures { result ≡ sector_of number sectors }
{
    number.checked_rem(sectors as u64).unwrap_or(0) as usize
}

// One pass over all sectors: what there is to know of them, or the lowest foreign one.
fn scan<D: Disk>(disk: &D, format: Format) -> Result<Known, RingFault>
    requires { format.sectors ≡ count (D.meaning disk.now) }
    ensures { let m = D.meaning disk.now in
        result ≡ scan format m.reading (foreign_below format m.reading (count m)) }
{
    let mut known = Known::NOTHING;
    for sector in 0..format.sectors {
        let bytes = disk.read(sector)?;
        match classify(format, sector, &bytes) {
            Content::Blank => {}
            Content::Foreign => return Err(RingFault::Foreign(sector)),
            Content::Record(entry) => known = known.meet(entry),
        }
    }
    Ok(known)
}

// The most writes and flushes of one reservation: seven carries and the reservation itself, two for each.
pub fn most_operations() -> u64
    ensures value { result ≡ 16 }
    ensures most { AtMostSoMany result }
{
    2 * (7 + 1)
}

impl Ring {
    // Reads all sectors of a disk: the ring as they have it, or why there is none.
    pub fn recover<D: Disk>(disk: &D, tag: u8, top: Rank) -> Result<Ring, RingFault>
        ensures answer { let m = D.meaning disk.now in
            let format : Format = record { tag = tag; top = top; sectors = count m } in
            result ≡ recover format m.reading }
        ensures agrees { top.0 < 2 ^ 53 → IfOk result (λ ring. Agrees ring (D.meaning disk.now)) }
    {
        let sectors = disk.sectors();
        if !(LEAST_SECTORS..=MOST_SECTORS).contains(&sectors) {
            return Err(RingFault::Size(sectors));
        }
        let format = Format { tag, top, sectors };
        let known = scan(disk, format)?;
        let ring = Ring { format, known };
        let gap = ring.gap();
        let bytes = disk.read(gap)?;
        if ring.known.holds_live(classify(format, gap, &bytes)) {
            return Err(RingFault::LiveInGap(gap));
        }
        Ok(ring)
    }

    // The top record's sequence number, 0 without a record.
    pub fn top_record(&self) -> Sequence
        ensures value { result ≡ self.now.known.top }
        ensures reads { (m : Meaning) → Agrees self.now m →
            result.0 ≡ top self.now.format m.reading }
    {
        self.known.top
    }

    // The end of a series: the first rank that is not reserved; 0 without a record, and for a series above 7.
    pub fn end(&self, series: u8) -> Rank
        ensures value { result ≡ known_end self.now.known series }
        ensures reads { (m : Meaning) → Agrees self.now m → series < 8 →
            result.0 ≡ end_of self.now.format m.reading series }
    {
        self.known.end(series)
    }

    // The ends of all eight series, in their order.
    pub fn ends(&self) -> [Rank; 8]
        ensures value { result ≡ known_ends self.now.known }
        ensures reads { (m : Meaning) → Agrees self.now m →
            EndsAre self.now.format m.reading result }
    {
        self.known.lives.map(|live| live.end)
    }

    // The blocks of all eight series as a server wakes with them: they are empty, each at the end of its series.
    pub fn blocks(&self) -> Blocks
        ensures value { result ≡ empty_blocks (known_ends self.now.known) }
        ensures reads { (m : Meaning) → Agrees self.now m →
            EndsAre self.now.format m.reading (block_nexts result)
            × EndsAre self.now.format m.reading (block_ends result) }
    {
        Blocks::empty(self.known)
    }

    // What the sector after the gap holds.
    pub(crate) fn look<D: Disk>(&self, disk: &D) -> Result<Content, DiskFault>
        ensures { result ≡ look self.now (D.meaning disk.now).reading }
    {
        let sector = sector_of(self.known.top.0.saturating_add(2), self.format.sectors);
        let bytes = disk.read(sector)?;
        Ok(classify(self.format, sector, &bytes))
    }

    // The sector that the next record goes to.
    fn gap(&self) -> usize
        ensures { result ≡ known_gap self.now }
    {
        sector_of(self.known.top.0.saturating_add(1), self.format.sectors)
    }

    // Writes the next record into the gap, and notes it.
    fn write_record<D: Disk>(
        &mut self,
        disk: &mut D,
        gap: usize,
        work: Work,
        claim: Claim,
    ) -> Result<(), Interrupted>
        requires { gap ≡ known_gap self.old }
        ensures answer { let m = D.meaning disk.old in
            result ≡ with_work work (answer_of Write m (known_gap self.old)) }
        ensures effect { let m = D.meaning disk.old in
            let after = D.meaning disk.new in
            MatchResult result
            (λ _. Writes self.old m claim.series claim.end self.new after)
            (λ _. (after ≡ m) × (self.new ≡ self.old)) }
        ensures moves { let entry = next_of self.old claim.series claim.end in
            let bytes = encoded self.old.format.tag entry in
            D.moves.writes disk.old (known_gap self.old) bytes disk.new }
    {
        let entry = self.known.next(claim);
        during(work, disk.write(gap, &encode(self.format.tag, entry)))?;
        self.known = self.known.note(entry);
        Ok(())
    }

    // Writes a reservation into the gap, and notes it.
    fn write_reservation<D: Disk>(
        &mut self,
        disk: &mut D,
        gap: usize,
        claim: Claim,
        start: Rank,
    ) -> Result<Written, Interrupted>
        requires { gap ≡ known_gap self.old }
        ensures written { IfOk result (λ w.
            w ≡ record { claim = claim; start = start; sector = known_gap self.old }) }
        ensures answer { let m = D.meaning disk.old in
            let work = Reservation claim.series in
            done result ≡ with_work work (answer_of Write m (known_gap self.old)) }
        ensures effect { let m = D.meaning disk.old in
            let after = D.meaning disk.new in
            MatchResult result
            (λ _. Writes self.old m claim.series claim.end self.new after)
            (λ _. (after ≡ m) × (self.new ≡ self.old)) }
        ensures moves { let entry = next_of self.old claim.series claim.end in
            let bytes = encoded self.old.format.tag entry in
            D.moves.writes disk.old (known_gap self.old) bytes disk.new }
    {
        let entry = self.known.next(claim);
        match Written::write(disk, self.format.tag, entry, start, gap) {
            Ok(written) => {
                self.known = self.known.note(entry);
                Ok(written)
            }
            Err(fault) => Err(Interrupted {
                work: Work::Reservation(claim.series),
                fault,
            }),
        }
    }

    // Carries a live record: writes it anew into the gap, and flushes.
    fn carry<D: Disk>(&mut self, disk: &mut D, entry: Record) -> Result<(), Interrupted>
        ensures work { IfErr result (λ stopped. stopped.work ≡ Carry entry.series) }
        ensures appends { let step = known_carry self.old entry in
            MatchResult result
            (λ _. Appends D.moves D.meaning self.old disk.old step (Ok tt) self.new disk.new)
            (λ x.
            Appends D.moves D.meaning self.old disk.old step (Err x.fault) self.new disk.new) }
    {
        let claim = Claim::from(entry);
        let work = Work::Carry(claim.series);
        let gap = self.gap();
        self.write_record(disk, gap, work, claim)?;
        during(work, disk.flush(gap))
    }

    // Looks at the sector after the gap, and carries what is live there of another series, until nothing is; tells the
    // gap.
    fn clear_the_way<D: Disk>(&mut self, disk: &mut D, series: u8) -> Result<usize, RingFault>
        requires { self.old.known.top.0 + 8 ≤ LAST_SEQUENCE }
        ensures gap { IfOk result (λ gap. gap ≡ known_gap self.new) }
        ensures runs { let start = self.old.known.top.0 in
            MatchResult result
            (λ _. RunsClear D.moves D.meaning series start self.old disk.old self.new disk.new)
            (λ x. RunsShort D.moves D.meaning series start self.old disk.old x self.new disk.new) }
    {
        let start = self.known.top;
        let gap = loop {
            let content = self.look(disk)?;
            match self.known.to_carry(series, start, content) {
                Some(entry) => self.carry(disk, entry)?,
                None => break self.gap(),
            }
        };
        Ok(gap)
    }

    // Clears the way and writes the reservation, which is then to be confirmed or given up.
    fn begin<D: Disk>(&mut self, disk: &mut D, claim: Claim) -> Result<Written, RingFault>
        requires { self.old.known.top.0 + 8 ≤ LAST_SEQUENCE }
        ensures claims { IfOk result (λ w. w.claim ≡ claim) }
        ensures starts { IfOk result (λ w. w.start ≡ known_end self.old.known claim.series) }
        ensures runs { let start = self.old.known.top.0 in
            MatchResult result
            (λ w.
            RunsWritten D.moves D.meaning claim start self.old disk.old w.sector self.new disk.new)
            (λ x. RunsStopped D.moves D.meaning claim start self.old disk.old x self.new disk.new) }
    {
        let start = self.known.end(claim.series);
        let gap = self.clear_the_way(disk, claim.series)?;
        let written = self.write_reservation(disk, gap, claim, start)?;
        Ok(written)
    }

    // What a reservation claims, if it may be made at all.
    fn admit(&self, series: u8, end: Rank) -> Result<Claim, RingFault>
        ensures { let claim : Claim = record { series = series; end = end } in
            result ≡ admit claim (refusal self.now.format self.now.known.top.0 series end) }
    {
        if end.0 == 0 || end.0 - 1 > self.format.top.0 {
            return Err(RingFault::End(end));
        }
        if series >= 8 {
            return Err(RingFault::Series(series));
        }
        if self.known.top.0 > LAST_SEQUENCE - 8 {
            return Err(RingFault::Exhausted);
        }
        Ok(Claim { series, end })
    }

    // Reserves the ranks of a series up to a new end: carries what is in the way, writes the reservation and flushes it.
    #[tactic(auto, using(crate::proofs::Leaves::reservation_laws, crate::proofs::Leaves::tops_counted))]
    pub fn reserve<D: Disk>(
        &mut self,
        disk: &mut D,
        series: u8,
        end: Rank,
    ) -> Result<Reserved, RingFault>
        ensures refused { let refused = refusal self.old.format self.old.known.top.0 series end in
            (fault : RingFault) → refused ≡ Some fault →
            (result ≡ Err fault) × (self.new ≡ self.old)
            × (D.meaning disk.new ≡ D.meaning disk.old) }
        ensures reserves { let refused = refusal self.old.format self.old.known.top.0 series end in
            let m = D.meaning disk.old in
            Agrees self.old m → refused ≡ None →
            Ended self.old.format series end m result self.new (D.meaning disk.new) }
        ensures untouched { let refused = refusal self.old.format self.old.known.top.0 series end in
            (fault : RingFault) → refused ≡ Some fault → disk.new ≡ disk.old }
        ensures moves { let refused = refusal self.old.format self.old.known.top.0 series end in
            Agrees self.old (D.meaning disk.old) → refused ≡ None →
            Tried D.moves D.meaning self.old.format series disk.old end.0 disk.new }
        ensures ends { Agrees self.old (D.meaning disk.old) →
            IfOk result (λ _.
            known_ends self.new.known ≡ slice_set (known_ends self.old.known) series end) }
        ensures runs { let refused = refusal self.old.format self.old.known.top.0 series end in
            let start = known_end self.old.known series in
            let value : Reserved = record { series = series; start = start; end = end } in
            RunsUnlessRefused D.moves D.meaning refused value
            self.old disk.old result self.new disk.new }
        ensures laws { ReservationLaws }
        ensures tops { TopsCounted }
    {
        let claim = self.admit(series, end)?;
        let written = self.begin(disk, claim)?;
        let reserved = written.confirm(disk).map_err(Unconfirmed::give_up)?;
        Ok(reserved)
    }
}
