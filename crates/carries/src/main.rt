// A ring that closes, and its carries: seven live records are in the way of one reservation, and the current fails at
// each of its sixteen writes and flushes in turn.
#![tactic(auto)]

ghost use Rattle.std.specs.Prelude.{◌≡◌, Some, IfOk, IsOkAnd, flat_map};
ghost use Rattle.disk.specs.Blank.{WithoutRecords};
ghost use Rattle.ring.specs.Left.{LawfulReservation};
ghost use Rattle.ring.specs.Ring.{Agrees};
ghost use Rattle.carries.specs.Texts.{answer_text, end_text, recovered_text};
ghost use Rattle.carries.specs.Stops.{format, series_told, Filled, CutBy, Stops, FilledAndStopped};

use disk::{Disk, HoldBack, LatestWrite, MemoryDisk, WriteThrough};
use record::{Rank, SECTOR_BYTES};
use ring::{Blocks, Reserved, Ring, RingFault};
use std::{fmt, io};

const SECTORS: usize = 10;

const BYTES: usize = SECTORS * SECTOR_BYTES;

const TAG: u8 = 1;

const TOP: Rank = Rank(999_999_998);

const SUPPLY: u64 = 1_000;

// What a reservation answers: the series for which it is made, or where it was stopped.
#[derive(Clone, Copy)]
struct Answer(Result<u8, RingFault>);

// What recovery finds: the top record and the eight ends, or why there is no ring.
#[derive(Clone, Copy)]
struct Recovered(Result<Ring, RingFault>);

// The ends of the eight series, each with a space before it.
#[derive(Clone, Copy)]
struct Ends([Rank; 8]);

impl fmt::Display for Answer {
    ghost output = { λ answer. Some (answer_text answer.0) };

    fn fmt<W: fmt::Write>(&self, f: &mut fmt::Formatter<W>) -> fmt::Result {
        match self.0 {
            Ok(series) => write!(f, "series {series} has reserved"),
            Err(fault) => write!(f, "{fault}"),
        }
    }
}

// The ends stand in the order of their series.
impl fmt::Display for Ends {
    ghost output = { λ ends. Some (flat_map end_text ends.0) };

    fn fmt<W: fmt::Write>(&self, f: &mut fmt::Formatter<W>) -> fmt::Result {
        for end in self.0 {
            write!(f, " {}", end.0)?;
        }
        Ok(())
    }
}

impl fmt::Display for Recovered {
    ghost output = { λ recovered. Some (recovered_text recovered.0) };

    fn fmt<W: fmt::Write>(&self, f: &mut fmt::Formatter<W>) -> fmt::Result {
        match self.0 {
            Ok(ring) => {
                let top = ring.top_record().0;
                let ends = Ends(ring.ends());
                write!(f, "top record {top:>2}, ends{ends}")
            }
            Err(fault) => write!(f, "{fault}"),
        }
    }
}

// The nine reservations that fill the ring: one of each series, and a second one of series 7.
fn fill<D: Disk>(disk: &mut D, ring: &mut Ring) -> Result<(), RingFault>
    ensures { let m = D.meaning disk.old in
        Agrees ring.old m →
        IfOk result (λ _. Filled ring.old.format m 9 (D.meaning disk.new)) }
{
    let mut blocks = ring.blocks();
    for series in 0..8u8 {
        blocks.fill(ring.reserve(disk, series, Rank(1))?);
    }
    blocks.fill(ring.reserve(disk, 7, Rank(2))?);
    Ok(())
}

// What a reservation answered. One that is made fills blocks, and no rank is drawn from them.
fn told(answer: Result<Reserved, RingFault>, mut blocks: Blocks) -> Answer
    ensures { result.0 ≡ series_told answer }
{
    match answer {
        Ok(reserved) => {
            let series = reserved.series();
            blocks.fill(reserved);
            Answer(Ok(series))
        }
        Err(fault) => Answer(Err(fault)),
    }
}

// The current fails and comes back with so much supply; then the reservation with seven carries, a cut, and recovery.
fn stop<D: Disk>(disk: &mut D, supply: u64, tear: u64) -> Result<(Answer, Recovered), RingFault>
    ensures { let m = D.meaning disk.old in
        let cuts = CutBy D.moves D.meaning in
        LawfulReservation (format m) 7 3 m → IsOkAnd result (λ told.
        Stops cuts m supply tear told.0.0 told.1.0 (D.meaning disk.new)) }
{
    disk.cut(0, supply);
    let mut ring = Ring::recover(disk, TAG, TOP)?;
    let blocks = ring.blocks();
    let answer = told(ring.reserve(disk, 7, Rank(3)), blocks);
    disk.cut(tear, SUPPLY);
    let recovered = Ring::recover(disk, TAG, TOP);
    Ok((answer, Recovered(recovered)))
}

// A disk is filled, and then stopped.
fn fill_and_stop<D: Disk>(
    disk: &mut D,
    supply: u64,
    tear: u64,
) -> Result<(Answer, Recovered), RingFault>
    ensures { let m = D.meaning disk.old in
        let cuts = CutBy D.moves D.meaning in
        WithoutRecords m → IfOk result (λ told.
        FilledAndStopped cuts m supply tear told.0.0 told.1.0 (D.meaning disk.new)) }
{
    let mut ring = Ring::recover(disk, TAG, TOP)?;
    fill(disk, &mut ring)?;
    stop(disk, supply, tear)
}

// The line of one stop, on a new disk that holds back as this type says.
fn stop_at<H: HoldBack>(rt: &HostRuntime, supply: u64, tear: u64) -> io::Result<()> {
    let mut memory = [0; BYTES];
    let Ok(mut disk) = MemoryDisk::<H>::new(&mut memory, SECTORS, SUPPLY) else {
        return println!(rt; "no disk");
    };
    let Ok((answer, recovered)) = fill_and_stop(&mut disk, supply, tear) else {
        return println!(rt; "the ring did not fill");
    };
    println!(rt; "supply {supply:>2}, tear {tear:>2} | {recovered} | {answer}")
}

fn main(rt: HostRuntime) -> io::Result<()> {
    println!(rt; "Ten sectors. Series 0 to 6 reserve once, series 7 twice: nine records.")?;
    println!(rt;
        "Its third reservation finds the live records of series 0 to 6 after the gap, one behind the other."
    )?;
    println!(rt;
        "Each is carried: written anew into the gap, and flushed. With the reservation that is 16 writes and flushes."
    )?;
    println!(rt; "")?;
    println!(rt;
        "Torn disk. The current fails at each of the 16 in turn; a cut tears the last write at byte 20; recovery:"
    )?;
    for supply in 0..17 {
        stop_at::<LatestWrite>(&rt, supply, 20)?;
    }
    println!(rt; "")?;
    println!(rt;
        "Torn disk. The current fails at the last flush; the cut tears the reservation at byte 0 to 32:"
    )?;
    for tear in 0..33 {
        stop_at::<LatestWrite>(&rt, 15, tear)?;
    }
    println!(rt; "")?;
    println!(rt; "Faithful disk. The current fails at each of the 16 in turn:")?;
    for supply in 0..17 {
        stop_at::<WriteThrough>(&rt, supply, 20)?;
    }
    Ok(())
}
