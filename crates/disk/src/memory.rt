// A disk over memory handed in.
ghost use Rattle.std.specs.Prelude.{◌≡◌, length, is_ok, IfOk, if◌then◌else◌, MatchResult};
ghost use Rattle.disk.specs.Devices.{memory_disk, memory_moves, MadeOver};
ghost use Rattle.disk.specs.Meaning.{at, answer_of, Wrote, Flushed, Cut};
ghost use Rattle.disk.specs.Shape.{all_shaped, all_sized};
ghost use Rattle.disk.specs.Memory.{right_size, sectors as cut_up, stored};
ghost use Rattle.disk.specs.declared.fault.Operation.TheVariants.{Write, Flush};

use crate::disk::{Disk, SizedDisk};
use crate::fault::{DiskFault, Operation, admit};
use crate::hold::HoldBack;
use crate::sectors::Sectors;
use crate::size::BadSize;
use record::SECTOR_BYTES;

// The memory is what is read; a write that is held back is in it already.
#[derive(Drop)]
pub struct MemoryDisk<'a, H> {
    sectors: Sectors<'a>,
    supply: u64,
    held: H,
}

impl<'a, H: HoldBack> MemoryDisk<'a, H> {
    // A disk over memory of 32 bytes a sector, with so many writes and flushes to succeed, and no write held back.
    pub fn new(
        memory: &'a mut [u8],
        sectors: usize,
        supply: u64,
    ) -> Result<MemoryDisk<'a, H>, BadSize<'a>>
        ensures test { is_ok result ≡ right_size (length memory.old) sectors }
        ensures count { IfOk result (λ d. length (cut_up d.sectors.memory.now) ≡ sectors) }
        ensures cases { MatchResult result
            (λ d. MadeOver H.holding memory.old supply d)
            (λ e. e.memory.now ≡ memory.old) }
    {
        let sectors = Sectors::over(memory, sectors)?;
        Ok(MemoryDisk {
            sectors,
            supply,
            held: H::nothing(),
        })
    }
}

impl<H: HoldBack> Disk for MemoryDisk<'_, H> {
    ghost meaning = { memory_disk H.holding.before };

    ghost moves = { memory_moves H.holding };

    ghost shaped = { λ disk. record {
      bytes = all_shaped disk.sectors.memory.now;
      keeps = H.lawful.before_count disk.held (cut_up disk.sectors.memory.now);
    } };

    fn sectors(&self) -> usize {
        self.sectors.count()
    }

    fn read(&self, sector: usize) -> Result<[u8; SECTOR_BYTES], DiskFault> {
        self.sectors.read(sector)
    }

    fn write(&mut self, sector: usize, bytes: &[u8; SECTOR_BYTES]) -> Result<(), DiskFault>
        ensures answer { result ≡ answer_of Write (memory_disk H.holding.before self.old) sector }
        ensures effect { let m = memory_disk H.holding.before in
            MatchResult result
            (λ _. Wrote (m self.old) sector bytes.now (m self.new))
            (λ _. m self.new ≡ m self.old) }
        ensures moves { (memory_moves H.holding).writes self.old sector bytes.now self.new }
        ensures memory { let memory = self.old.sectors.memory.now in
            self.new.sectors.memory.now
            ≡ (if is_ok result then stored memory sector bytes.now else memory) }
        ensures holds { let replaced = at (cut_up self.old.sectors.memory.now) sector in
            let held = H.holding.with_write self.old.held sector replaced in
            self.new.held ≡ (if is_ok result then held else self.old.held) }
    {
        self.supply = admit(Operation::Write, sector, self.sectors.count(), self.supply)?;
        let old = self.sectors.load(sector);
        self.sectors.store(sector, bytes);
        self.held.hold(sector, old);
        Ok(())
    }

    fn flush(&mut self, sector: usize) -> Result<(), DiskFault>
        ensures answer { result ≡ answer_of Flush (memory_disk H.holding.before self.old) sector }
        ensures effect { let m = memory_disk H.holding.before in
            MatchResult result
            (λ _. Flushed (m self.old) (m self.new))
            (λ _. m self.new ≡ m self.old) }
        ensures moves { (memory_moves H.holding).flushes self.old sector self.new }
        ensures memory { self.new.sectors.memory.now ≡ self.old.sectors.memory.now }
        ensures holds { self.new.held
            ≡ (if is_ok result then H.holding.nothing else self.old.held) }
    {
        self.supply = admit(Operation::Flush, sector, self.sectors.count(), self.supply)?;
        self.held = H::nothing();
        Ok(())
    }

    fn cut(&mut self, tear: u64, supply: u64)
        ensures meaning { let m = memory_disk H.holding.before in
            Cut (m self.old) supply (m self.new) }
        ensures moves { (memory_moves H.holding).cuts self.old tear supply self.new }
        ensures memory { let memory = self.old.sectors.memory.now in
            self.new.sectors.memory.now ≡ H.holding.left tear self.old.held memory }
        ensures sectors { let before = cut_up self.old.sectors.memory.now in
            cut_up self.new.sectors.memory.now ≡ H.holding.left_sectors tear self.old.held before }
        ensures holds { self.new.held ≡ H.holding.nothing }
    {
        self.held.tear(tear, &mut self.sectors);
        self.held = H::nothing();
        self.supply = supply;
    }
}

impl<H: HoldBack> SizedDisk for MemoryDisk<'_, H> {
    ghost sized = { λ disk. all_sized disk.sectors.memory.now disk.sectors.sized };
}
