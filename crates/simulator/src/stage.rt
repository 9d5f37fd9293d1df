// Where a run stands, by the lines that were taken.
ghost use Rattle.std.specs.Prelude.{◌≡◌, None, ok_or};
ghost use Rattle.simulator.specs.Calls.{Extends};
ghost use Rattle.simulator.specs.Takes.{view_after};
ghost use Rattle.simulator.specs.Devices.{make_for, room};
ghost use Rattle.simulator.specs.Histories.{RunServed, RunReached, Lengthens};
ghost use Rattle.simulator.specs.Stages.{view, view_with_kind, view_with_lease, view_at_end};
ghost use Rattle.simulator.specs.declared.answer.Denial.TheVariants.{NoDevice};
ghost use Rattle.simulator.specs.declared.stage.Left.TheVariants.{Nothing};
ghost use Rattle.simulator.specs.declared.stage.Stage.TheVariants.{Ended};

use crate::answer::{Answer, Denial};
use crate::any_kind::AnyKind;
use crate::device::{Device, Make};
use disk::{LEAST_SECTORS, MOST_SECTORS};
use kind::Lease;
use record::SECTOR_BYTES;
use server::Server;
use std::mem;

// What is left of a run that has ended.
#[derive(Drop)]
pub enum Left<'a> {
    Nothing,
    Memory(&'a mut [u8]),
    Disk {
        disk: Device<'a>,
        spare: &'a mut [u8],
    },
    Server {
        server: Server<Device<'a>, AnyKind>,
        spare: &'a mut [u8],
    },
}

// The stages of a run. The spare is the memory past the disk's; it lies beside a disk or beside a server that has it,
// so the two are no struct of their own.
#[derive(Drop)]
pub enum Stage<'a> {
    // The line for the device is to come.
    Device(&'a mut [u8]),
    // The line for the kind is to come.
    Kind {
        disk: Device<'a>,
        spare: &'a mut [u8],
    },
    // The line for the box is to come.
    Box {
        disk: Device<'a>,
        spare: &'a mut [u8],
        lease: Lease,
    },
    // Requests and cuts are to come.
    Running {
        server: Server<Device<'a>, AnyKind>,
        spare: &'a mut [u8],
    },
    // No line is taken any more.
    Ended(Left<'a>),
}

impl Stage<'_> {
    // The lease is known, and the box is to come.
    pub(crate) fn set_lease(&mut self, lease: Lease)
        ensures leases { view self.new ≡ view_with_lease lease (view self.old) }
        ensures extends { Lengthens (RunReached self.old) None (RunReached self.new) }
        ensures serves { Extends (RunServed self.old) None (RunServed self.new) }
    {
        *self = match mem::take(self) {
            Stage::Kind { disk, spare } => Stage::Box { disk, spare, lease },
            other => other,
        };
    }

    // The server is put together.
    pub(crate) fn run(&mut self, kind: AnyKind)
        ensures starts { view self.new ≡ view_with_kind kind (view self.old) }
        ensures extends { Lengthens (RunReached self.old) None (RunReached self.new) }
        ensures serves { Extends (RunServed self.old) None (RunServed self.new) }
    {
        *self = match mem::take(self) {
            Stage::Kind { disk, spare } | Stage::Box { disk, spare, .. } => Stage::Running {
                server: Server::new(disk, kind),
                spare,
            },
            other => other,
        };
    }

    // Ends the run after a denial that does so.
    pub(crate) fn finish(&mut self, answer: Result<Answer, Denial>)
        ensures ends { view self.new ≡ view_after answer (view self.old) }
        ensures extends { Lengthens (RunReached self.old) None (RunReached self.new) }
        ensures serves { Extends (RunServed self.old) None (RunServed self.new) }
    {
        if answer.is_err_and(|denial| denial.ends_run()) {
            self.end();
        }
    }

    // The run ends.
    fn end(&mut self)
        ensures ends { view self.new ≡ view_at_end (view self.old) }
        ensures extends { Lengthens (RunReached self.old) None (RunReached self.new) }
        ensures serves { Extends (RunServed self.old) None (RunServed self.new) }
    {
        *self = Stage::Ended(match mem::take(self) {
            Stage::Device(memory) => Left::Memory(memory),
            Stage::Kind { disk, spare } | Stage::Box { disk, spare, .. } => {
                Left::Disk { disk, spare }
            }
            Stage::Running { server, spare } => Left::Server { server, spare },
            Stage::Ended(left) => left,
        });
    }
}

// No memory is left: what stands in a stage's place while the next one is made of it.
impl Default for Stage<'_> {
    ghost is_default = { λ r. r ≡ Ended Nothing };

    fn default() -> Self {
        Stage::Ended(Left::Nothing)
    }
}

// The disk that a number stands for.
impl TryFrom<u64> for Make {
    type Error = Denial;

    ghost try_from_gives = { λ number r. r ≡ ok_or (make_for number) NoDevice };

    fn try_from(number: u64) -> Result<Make, Denial> {
        match number {
            0 => Ok(Make::Faithful),
            1 => Ok(Make::Torn),
            _ => Err(Denial::NoDevice),
        }
    }
}

// Whether a memory of so many bytes has room for a disk of so many sectors.
pub(crate) fn has_room(bytes: usize, sectors: u64) -> bool
    ensures { result ≡ room bytes sectors }
{
    (LEAST_SECTORS as u64..=MOST_SECTORS as u64).contains(&sectors)
        && SECTOR_BYTES as u64 * sectors <= bytes as u64
}
