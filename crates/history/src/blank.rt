// Calls on a server over memory that was cleared, and what none of them can make false, whatever was in the memory before.
ghost use Rattle.std.specs.Prelude.{◌≡◌, length, is_ok, IfOk, IfErr};
ghost use Rattle.disk.specs.Memory.{right_size};
ghost use Rattle.kind.specs.Serial.{serial_numbering};
ghost use Rattle.history.specs.Made.{RanBlank, RanSerially};

use crate::calls::{Turn, run};
use disk::{BadSize, HoldBack, MemoryDisk, blank_disk};
use kind::{Kind, SerialKind};
use server::Server;

// Clears a memory, makes a disk without records of it, puts a server together there, makes the calls of the turns in their
// order, and gives the server back. A memory that is not of 32 bytes for each of 10 to 2,048 sectors is handed back as it is,
// and no call is made.
pub fn run_blank<'a, H: HoldBack, K: Kind + Drop>(
    memory: &'a mut [u8],
    sectors: usize,
    supply: u64,
    kind: K,
    turns: &mut [Turn],
) -> Result<Server<MemoryDisk<'a, H>, K>, BadSize<'a>>
    ensures test { is_ok result ≡ right_size (length memory.old) sectors }
    ensures denied { IfErr result (λ bad. (bad.memory.now ≡ memory.old) × (turns.new ≡ turns.old)) }
    ensures kind { IfOk result (λ server. server.kind ≡ kind) }
    ensures promise { let k = K.numbering kind in
        IfOk result (λ made. RanBlank H.holding k sectors supply turns.old turns.new made.state made.disk) }
{
    match blank_disk(memory, sectors, supply) {
        Ok(disk) => Ok(run(disk, kind, turns)),
        Err(bad) => Err(bad),
    }
}

// The same with the serial kind: each identifier is hi × block size + lo above the first one.
pub fn run_serial<'a, H: HoldBack>(
    memory: &'a mut [u8],
    sectors: usize,
    supply: u64,
    kind: SerialKind,
    turns: &mut [Turn],
) -> Result<Server<MemoryDisk<'a, H>, SerialKind>, BadSize<'a>>
    ensures test { is_ok result ≡ right_size (length memory.old) sectors }
    ensures denied { IfErr result (λ bad. (bad.memory.now ≡ memory.old) × (turns.new ≡ turns.old)) }
    ensures kind { IfOk result (λ server. server.kind ≡ kind) }
    ensures promise { let k = serial_numbering kind in
        IfOk result (λ made. RanSerially H.holding k sectors supply turns.old turns.new made.state made.disk) }
{
    run_blank(memory, sectors, supply, kind, turns)
}
