// A short history of a server on the torn disk: requests, a flush that goes dark, and cuts that tear a reservation or leave it.
#![tactic(auto)]

ghost use Rattle.std.specs.Prelude.{◌≡◌, Some, None};
ghost use Rattle.history.specs.declared.calls.Call.TheVariants.{Give, Cut};
ghost use Rattle.outage.specs.Promise.{MadeOnTorn};
ghost use Rattle.outage.specs.Texts.{turn_text};

use disk::LatestWrite;
use history::{Answer, Call, Turn, run_blank};
use kind::{Kind, SerialKind};
use record::{Identifier, Reading, SECTOR_BYTES, Sequence};
use std::{fmt, io};

const SECTORS: usize = 10;

const BLOCK_SIZE: u64 = 3;

const SUPPLY: u64 = 5;

// A request of a series, still to be made; the serial kind has the same floor at every reading.
fn give(series: u8) -> Turn
    ensures { result ≡ record { call = Give series (record { 0 = 0 }); answer = None } }
{
    let reading = Reading(0);
    Turn {
        call: Call::Give { series, reading },
        answer: None,
    }
}

// A power cut, still to be made.
fn cut(tear: u64, supply: u64) -> Turn
    ensures { result ≡ record { call = Cut tear supply; answer = None } }
{
    Turn {
        call: Call::Cut { tear, supply },
        answer: None,
    }
}

// A turn as a line: the call and what it answered.
#[derive(Drop)]
struct Told(Turn);

impl fmt::Display for Told {
    ghost output = { λ told. Some (turn_text told.0) };

    fn fmt<W: fmt::Write>(&self, f: &mut fmt::Formatter<W>) -> fmt::Result {
        match self.0.call {
            Call::Give { series, reading: _ } => write!(f, "request of series {series}     | ")?,
            Call::Cut { tear, supply } => write!(f, "cut, tear {tear:>2}, supply {supply:>2} | ")?,
        }
        match self.0.answer {
            None => write!(f, "not made"),
            Some(Answer::Give(Ok(Identifier(number)))) => write!(f, "identifier {number}"),
            Some(Answer::Cut(Ok(Sequence(top)))) => write!(f, "top record {top}"),
            Some(Answer::Give(Err(fault)) | Answer::Cut(Err(fault))) => {
                write!(f, "denied: {fault}")
            }
        }
    }
}

// Makes the calls of the turns on a server over a torn disk that begins without records.
fn make_all<K: Kind + Drop>(kind: K, turns: &mut [Turn])
    ensures { MadeOnTorn (K.numbering kind) turns.old turns.new }
{
    let mut memory = [0; SECTORS * SECTOR_BYTES];
    let Ok(_server) = run_blank::<LatestWrite, K>(&mut memory, SECTORS, SUPPLY, kind, turns) else {
        unreachable()
    };
}

fn main(rt: HostRuntime) -> io::Result<()> {
    println!(rt;
        "Serial kind, blocks of {BLOCK_SIZE}; torn disk of {SECTORS} sectors; {SUPPLY} writes and flushes until the current fails."
    )?;
    println!(rt; "")?;
    let mut turns = [
        give(2),
        give(2),
        give(2),
        give(2),
        give(5),
        give(2),
        cut(20, 3),
        give(5),
        give(2),
        cut(32, 9),
        give(2),
        give(5),
    ];
    let Ok(kind) = SerialKind::new(BLOCK_SIZE) else {
        return println!(rt; "no kind");
    };
    make_all(kind, &mut turns);
    for turn in turns {
        println!(rt; "{}", Told(turn))?;
    }
    Ok(())
}
