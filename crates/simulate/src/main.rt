// Reads request lines from standard input, and prints what the simulator makes of each.
#![tactic(auto)]

ghost use Rattle.std.specs.Prelude.{◌≡◌, ◌≤◌, length, IfOk, OnOk};
ghost use Rattle.std.specs.Io.KnownBytes.{Appends, ReadConsumes};
ghost use Rattle.simulate.specs.Pieces.{TakesPiece, TakesInput};

use simulator::{Feed, PRINT_BYTES};
use std::alloc::AllocError;
use std::io::{self, BufWriter, ErrorKind, Read, Write};
use std::ops::ControlFlow;

// The bytes of the disk's memory.
const MEMORY_BYTES: usize = 65_536;

// The bytes of one read. With the prints of such a piece they come to less than 64 KiB.
const READ_BYTES: usize = 24_576;

// The bytes of a request line.
const LINE_BYTES: usize = 21;

// Room for the prints of a piece, so that none has to be found while lines are taken: of all its lines only the first, the
// end of one that was held, and the last, where it ends the run, may have fewer than 21 bytes in it.
const PIECE_PRINT_BYTES: usize = (READ_BYTES / LINE_BYTES + 2) * PRINT_BYTES;

// A run of the simulator, the prints of one piece, and where they go.
#[derive(Drop)]
struct Session<'a, W> {
    feed: Feed<'a>,
    print: Vec<u8>,
    out: W,
}

impl<W: Write> Session<'_, W> {
    // Prints the lines of a piece; of an empty one, which tells the end of the input, the line that is held.
    // Breaks where there is no more to do.
    fn print_piece(&mut self, piece: &[u8]) -> Result<ControlFlow<()>, AllocError>
        ensures prints { IfOk result (λ flow.
            TakesPiece self.old.feed piece.now flow self.new.feed self.new.print.items) }
        ensures out { self.new.out ≡ self.old.out }
    {
        self.print.clear();
        if piece.is_empty() {
            self.feed.finish(&mut self.print)?;
            return Ok(ControlFlow::Break(()));
        }
        self.feed.feed(piece, &mut self.print)
    }

    // Takes one more piece of the input, and writes what is printed.
    fn take_piece<R: Read>(
        &mut self,
        input: &mut R,
        buffer: &mut [u8],
    ) -> anyhow::Result<ControlFlow<()>>
        ensures takes { IfOk result (λ flow.
            TakesInput self.old.feed buffer.new flow self.new.feed self.new.print.items
            (R.remaining input.old) (R.remaining input.new)) }
        ensures writes { OnOk result
            (Appends (W.contents self.old.out) (W.contents self.new.out) self.new.print.items) }
    {
        let count = read_piece(input, buffer)?;
        let flow = self.print_piece(&buffer[..count])?;
        self.out.write_all(&self.print)?;
        self.out.flush()?;
        Ok(flow)
    }
}

// The number of bytes that one read gave; a read that a signal broke off is tried again.
fn read_piece<R: Read>(input: &mut R, buffer: &mut [u8]) -> io::Result<usize>
    ensures bound { IfOk result (λ count. count ≤ length buffer.new) }
    ensures bytes { ReadConsumes (R.remaining input.old) (R.remaining input.new) result buffer.new }
{
    // A bound that is never met, since a loop without one would be allowed to wait for ever.
    for _ in 0..u64::MAX {
        match input.read(buffer) {
            Ok(count) => return Ok(count),
            Err(error) if error.kind() == ErrorKind::Interrupted => {}
            Err(error) => return Err(error),
        }
    }
    Err(ErrorKind::Interrupted.into())
}

// Reads up to the end of the input, or to the end of the run.
fn main(rt: HostRuntime) -> anyhow::Result<()> {
    let mut memory = vec![in rt.alloc(); 0u8; MEMORY_BYTES]?;
    let mut buffer = vec![in rt.alloc(); 0u8; READ_BYTES]?;
    let mut input = rt.stdin();
    let mut session = Session {
        feed: Feed::new(&mut memory),
        print: Vec::with_capacity(rt.alloc(), PIECE_PRINT_BYTES)?,
        out: BufWriter::new(rt.alloc(), rt.stdout())?,
    };
    // The same bound: no input has so many pieces.
    for _ in 0..u64::MAX {
        if session.take_piece(&mut input, &mut buffer)?.is_break() {
            break;
        }
    }
    Ok(())
}
