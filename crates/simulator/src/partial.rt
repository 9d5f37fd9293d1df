// A line that is being read: what has to be held of it.
ghost use Rattle.std.specs.Prelude.{◌≡◌, ◌≤◌};
ghost use Rattle.simulator.specs.declared.partial.TheConstants.{HELD_BYTES};

use crate::line::line_end;

// A request line has 21 bytes. One byte more shows that a line is too long, and what follows tells nothing.
const HELD_BYTES: usize = 22;

// What this number is.
pub fn held_limit()
    ensures { HELD_BYTES ≡ 22 }
{}

// The first bytes of a line that has not ended. An array and a count, since this type is `Copy` and an `ArrayVec` is
// not.
#[derive(Clone, Copy)]
pub struct Partial {
    bytes: [u8; HELD_BYTES],
    count: usize,
    ghost fits: { count ≤ HELD_BYTES },
}

impl Partial {
    ghost use Rattle.std.specs.Prelude.{◌≡◌, ◌≤◌, [], ◌++◌, length, take, IfSome};
    ghost use Rattle.simulator.specs.Lines.{line_end, held_bytes, first_bytes, TellsAsMuch};

    // Nothing of a line.
    pub fn new() -> Partial
        ensures { held_bytes result ≡ [] }
    {
        Partial {
            bytes: [0; HELD_BYTES],
            count: 0,
        }
    }

    // Holds what there is room for of some bytes.
    fn hold(&mut self, input: &[u8])
        ensures { held_bytes self.new ≡ take HELD_BYTES (held_bytes self.old ++ input.now) }
    {
        let more = input.len().min(HELD_BYTES - self.count);
        self.bytes[self.count..self.count + more].copy_from_slice(&input[..more]);
        self.count += more;
    }

    // Holds the bytes up to the first line feed, and tells how many they are; or all of them, where no line feed comes.
    pub fn fill(&mut self, input: &[u8]) -> Option<usize>
        ensures end { result ≡ line_end input.now }
        ensures within { IfSome result (λ n. (1 ≤ n) × (n ≤ length input.now)) }
        ensures holds { held_bytes self.new
            ≡ take HELD_BYTES (held_bytes self.old ++ first_bytes input.now) }
    {
        let end = line_end(input);
        match end {
            Some(count) => self.hold(&input[..count]),
            None => self.hold(input),
        }
        end
    }

    // The bytes that are held. They tell as much as the whole line does.
    pub fn line(&self) -> &[u8]
        ensures bytes { result.now ≡ held_bytes self.now }
        ensures enough { TellsAsMuch }
    {
        &self.bytes[..self.count]
    }
}
