// The simulator: one call, a request line in and a print line out.
ghost use Rattle.std.specs.Prelude.{◌≡◌, ℕ, min, List, []};
ghost use Rattle.simulator.specs.Columns.{NumbersInColumns};
ghost use Rattle.simulator.specs.Calls.{turn_in, turn_for, Extends};
ghost use Rattle.simulator.specs.Devices.{meaning_of, make_of};
ghost use Rattle.simulator.specs.Histories.{HasServed, RunServed, IsReached, RunReached, Lengthens};
ghost use Rattle.simulator.specs.Stages.{view, awaits_disk, memory_of};
ghost use Rattle.simulator.specs.Steps.{step_of, done_on, requested, cut_off};
ghost use Rattle.simulator.specs.Takes.{run_of, taken_by, by_number, ended_by, stage_bytes};
ghost use Rattle.simulator.specs.declared.request.Command.TheVariants.{Give, Cut};

use crate::answer::{Answer, Denial, columns_of};
use crate::any_kind::AnyKind;
use crate::device::{Device, Make, open};
use crate::print::{PRINT_BYTES, write_line};
use crate::request::{Command, Fields, Item, command_in, fields_in};
use crate::stage::{Stage, has_room};
use disk::Disk;
use kind::{Correction, Lease, SerialKind, TimeKind};
use record::Reading;
use server::Server;
use std::mem;

// A run over disk memory that was handed in.
#[derive(Drop)]
pub struct Simulator<'a> {
    stage: Stage<'a>,
    taken: u64,
}

// The last line number that is lawful.
const LAST_LINE: u64 = 999_999;

// What this number is.
pub fn line_limit()
    ensures { LAST_LINE ≡ 999999 }
{}

// The series that a server is asked for: 255 for one that is above it.
fn asked_series(series: u64) -> u8
    ensures { result ≡ min series 255 }
{
    u8::try_from(series).unwrap_or(u8::MAX)
}

// A request of a series at a reading.
fn ask(server: &mut Server<Device<'_>, AnyKind>, fields: Fields) -> Result<Answer, Denial>
    ensures extends { Lengthens
        (IsReached server.old.kind server.old.state server.old.disk)
        (turn_for Give fields result)
        (IsReached server.new.kind server.new.state server.new.disk) }
    ensures serves { Extends
        (HasServed server.old.kind server.old.state server.old.disk)
        (turn_for Give fields result)
        (HasServed server.new.kind server.new.state server.new.disk) }
    ensures asks { (spare : List ℕ) →
        done_on result server.new.kind server.new.state server.new.disk spare
        ≡ requested (make_of server.old.disk) server.old.kind server.old.state
        (meaning_of server.old.disk) spare fields }
{
    let series = fields.a;
    server
        .give(asked_series(series), Reading(fields.b))
        .map(|identifier| Answer::Given { series, identifier })
        .map_err(|fault| Denial::NotGiven { series, fault })
}

// A power cut with a tear and a new supply, and the fresh start after it.
fn cut(server: &mut Server<Device<'_>, AnyKind>, fields: Fields) -> Result<Answer, Denial>
    ensures extends { Lengthens
        (IsReached server.old.kind server.old.state server.old.disk)
        (turn_for Cut fields result)
        (IsReached server.new.kind server.new.state server.new.disk) }
    ensures serves { Extends
        (HasServed server.old.kind server.old.state server.old.disk)
        (turn_for Cut fields result)
        (HasServed server.new.kind server.new.state server.new.disk) }
    ensures cuts { (spare : List ℕ) →
        done_on result server.new.kind server.new.state server.new.disk spare
        ≡ cut_off (make_of server.old.disk) server.old.kind
        (meaning_of server.old.disk) spare fields }
{
    server
        .cut(fields.a, fields.b)
        .map(Answer::Woken)
        .map_err(Denial::NotWoken)
}

impl<'a> Simulator<'a> {
    // A run that has taken no line, over memory for a disk.
    pub fn new(memory: &'a mut [u8]) -> Simulator<'a>
        ensures count { result.taken ≡ 0 }
        ensures stage { view result.stage ≡ awaits_disk memory.old }
        ensures serves { RunServed result.stage [] }
    {
        Simulator {
            stage: Stage::Device(memory),
            taken: 0,
        }
    }

    // Takes a request line: writes the first 34 bytes of the print line, and tells what the line was answered with.
    // With a print line of fewer bytes it is denied, and nothing changes.
    pub fn take(&mut self, line: &[u8], print: &mut [u8]) -> Result<Answer, Denial>
        ensures takes { record { answer = result; run = run_of self.new; print = print.new }
            ≡ taken_by (run_of self.old) line.now print.old }
        ensures extends { Lengthens
            (RunReached self.old.stage)
            (turn_in line.now result)
            (RunReached self.new.stage) }
        ensures serves { Extends
            (RunServed self.old.stage)
            (turn_in line.now result)
            (RunServed self.new.stage) }
        ensures memory { stage_bytes self.new.stage ≡ memory_of (view self.new.stage) }
        ensures numbers { NumbersInColumns }
    {
        let Some(print) = print.first_chunk_mut::<PRINT_BYTES>() else {
            return Err(Denial::ShortPrint);
        };
        self.taken = self.taken.saturating_add(1);
        let answer = self.answer(line);
        write_line(print, self.taken.min(LAST_LINE), columns_of(answer));
        answer
    }

    // What a line that is counted does, and the end of the run where it brings that.
    fn answer(&mut self, line: &[u8]) -> Result<Answer, Denial>
        ensures count { self.new.taken ≡ self.old.taken }
        ensures extends { Lengthens
            (RunReached self.old.stage)
            (turn_in line.now result)
            (RunReached self.new.stage) }
        ensures serves { Extends
            (RunServed self.old.stage)
            (turn_in line.now result)
            (RunServed self.new.stage) }
        ensures answers { record { answer = result; after = view self.new.stage }
            ≡ ended_by (by_number self.old.taken (view self.old.stage) line.now) }
    {
        let answer = if self.taken > LAST_LINE {
            Err(Denial::TooMany)
        } else {
            self.step(line)
        };
        self.stage.finish(answer);
        answer
    }

    // What a line does, by the stage and the command that its letter stands for. They are matched in place, since a
    // stage passed by value takes 14% longer a line.
    fn step(&mut self, line: &[u8]) -> Result<Answer, Denial>
        ensures count { self.new.taken ≡ self.old.taken }
        ensures extends { Lengthens
            (RunReached self.old.stage)
            (turn_in line.now result)
            (RunReached self.new.stage) }
        ensures serves { Extends
            (RunServed self.old.stage)
            (turn_in line.now result)
            (RunServed self.new.stage) }
        ensures steps { record { answer = result; after = view self.new.stage }
            ≡ step_of (view self.old.stage) line.now }
    {
        match (&mut self.stage, command_in(line)) {
            (Stage::Ended(_), _) => Err(Denial::Ended),
            (Stage::Device(memory), Ok(command @ Command::Disk)) => {
                let fields = fields_in(line, command)?;
                if !has_room(memory.len(), fields.b) {
                    return Err(Denial::Size);
                }
                let make = Make::try_from(fields.a)?;
                let memory = mem::take(memory);
                let (disk, spare) = open(make, memory, fields.b as usize);
                self.stage = Stage::Kind { disk, spare };
                Ok(Answer::Set)
            }
            (Stage::Kind { .. }, Ok(command @ Command::Serial)) => {
                let fields = fields_in(line, command)?;
                let kind = SerialKind::new(fields.a)?;
                self.stage.run(AnyKind::Serial(kind));
                Ok(Answer::Set)
            }
            (Stage::Kind { .. }, Ok(command @ Command::Time)) => {
                let fields = fields_in(line, command)?;
                let lease = Lease::new(fields.a)?;
                self.stage.set_lease(lease);
                Ok(Answer::Set)
            }
            (Stage::Box { lease, .. }, Ok(command @ Command::Box)) => {
                let fields = fields_in(line, command)?;
                let correction = Correction::new(fields.b)?;
                let kind = TimeKind::new(*lease, fields.a, correction)?;
                self.stage.run(AnyKind::Time(kind));
                Ok(Answer::Set)
            }
            (Stage::Running { server, .. }, Ok(command @ Command::Give)) => {
                let fields = fields_in(line, command)?;
                ask(server, fields)
            }
            (Stage::Running { server, .. }, Ok(command @ Command::Cut)) => {
                let fields = fields_in(line, command)?;
                cut(server, fields)
            }
            _ => Err(Denial::Malformed(Item::Letter)),
        }
    }
}
