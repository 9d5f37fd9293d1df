// A request file, from its bytes to its print.
ghost use Rattle.std.specs.Prelude.{◌≡◌, ◌++◌, OnOk};
ghost use Rattle.simulator.specs.Files.{print_of_file, run_of_file, turns_of_file};
ghost use Rattle.simulator.specs.Histories.{RunServed};
ghost use Rattle.simulator.specs.Stages.{view, memory_of};
ghost use Rattle.simulator.specs.Takes.{run_of, stage_bytes};

use crate::feed::Feed;
use crate::simulator::Simulator;
use std::alloc::AllocError;

// The run after a file, with its memory; and whether there was room for the whole print.
#[derive(Drop)]
pub struct FileRun<'a> {
    pub simulator: Simulator<'a>,
    pub printed: Result<(), AllocError>,
}

// Takes the lines of a file over a memory, and appends what is printed. Whatever the file, the calls that
// are made for its lines are those of a history that obeys the laws.
pub fn print_file<'a>(memory: &'a mut [u8], file: &[u8], print: &mut Vec<u8>) -> FileRun<'a>
    ensures prints { OnOk result.printed
        (print.new.items ≡ print.old.items ++ print_of_file memory.old file.now) }
    ensures comes_to { OnOk result.printed
        (run_of result.simulator ≡ run_of_file memory.old file.now) }
    ensures serves { OnOk result.printed
        (RunServed result.simulator.stage (turns_of_file memory.old file.now)) }
    ensures memory { let stage = result.simulator.stage in
        stage_bytes stage ≡ memory_of (view stage) }
{
    let mut feed = Feed::new(memory);
    let printed = feed.feed_last(file, print);
    FileRun {
        simulator: feed.into_simulator(),
        printed,
    }
}
