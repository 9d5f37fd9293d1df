// Disks without records, over memory handed in.
ghost use Rattle.std.specs.Prelude.{◌≡◌, length, replicate, is_ok, if◌then◌else◌, MatchResult};
ghost use Rattle.disk.specs.Devices.{memory_disk, MadeOver};
ghost use Rattle.disk.specs.Memory.{right_size};
ghost use Rattle.disk.specs.Blank.{BlankDisk};

use crate::hold::HoldBack;
use crate::memory::MemoryDisk;
use crate::size::{BadSize, is_right_size};

// Clears memory that is that of a disk of so many sectors, and leaves any other as it is.
fn clear(memory: &mut [u8], sectors: usize)
    ensures { let size = length memory.old in
        memory.new ≡ (if right_size size sectors then replicate size 0 else memory.old) }
{
    if is_right_size(memory.len(), sectors) {
        memory.fill(0);
    }
}

// Clears memory of the right size, and makes a disk over it; any other memory is handed back unchanged.
fn clear_and_make<'a, H: HoldBack>(
    memory: &'a mut [u8],
    sectors: usize,
    supply: u64,
) -> Result<MemoryDisk<'a, H>, BadSize<'a>>
    ensures test { is_ok result ≡ right_size (length memory.old) sectors }
    ensures cases { MatchResult result
        (λ d. MadeOver H.holding (replicate (length memory.old) 0) supply d)
        (λ e. e.memory.now ≡ memory.old) }
{
    clear(memory, sectors);
    MemoryDisk::new(memory, sectors, supply)
}

// A disk without records, of 10 to 2,048 sectors, which holds back as this type says; memory that is not of exactly 32 bytes
// a sector is handed back unchanged.
pub fn blank_disk<'a, H: HoldBack>(
    memory: &'a mut [u8],
    sectors: usize,
    supply: u64,
) -> Result<MemoryDisk<'a, H>, BadSize<'a>>
    ensures test { is_ok result ≡ right_size (length memory.old) sectors }
    ensures cases { MatchResult result
        (λ d. BlankDisk sectors supply d.sectors.memory.now (memory_disk H.holding.before d)
        × (d.held ≡ H.holding.nothing))
        (λ e. e.memory.now ≡ memory.old) }
{
    clear_and_make(memory, sectors, supply)
}
