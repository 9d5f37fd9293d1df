// A disk whose tears come from a source of chance.
ghost use Rattle.std.specs.Prelude.{◌≡◌};
ghost use Rattle.layered.specs.Layers.{chance_moves};

use disk::{Disk, DiskFault, SizedDisk};
use record::SECTOR_BYTES;

// A source of numbers, of which nothing is known.
pub trait Chance {
    // Another number.
    fn draw(&mut self) -> u64;
}

// Any disk, with a source that says how each cut tears it. No function of its value tells what a
// cut leaves.
#[derive(Drop)]
pub struct ByChance<D, C> {
    disk: D,
    chance: C,
}

impl<D: Disk, C: Chance> ByChance<D, C> {
    // Has the source tear a disk.
    pub fn new(disk: D, chance: C) -> ByChance<D, C>
        ensures { result ≡ record { disk = disk; chance = chance } }
    {
        ByChance { disk, chance }
    }

    // The disk below, to look at.
    pub fn disk(&self) -> &D
        ensures { result.now ≡ self.now.disk }
    {
        &self.disk
    }

    // The disk below, and the source.
    pub fn into_parts(self) -> (D, C)
        ensures { result ≡ (self.disk, self.chance) }
    {
        (self.disk, self.chance)
    }
}

impl<D: Disk, C: Chance> Disk for ByChance<D, C> {
    ghost meaning = { λ torn. D.meaning torn.disk };

    ghost moves = { chance_moves D.moves };

    ghost shaped = { λ torn. D.shaped torn.disk };

    fn sectors(&self) -> usize {
        self.disk.sectors()
    }

    fn read(&self, sector: usize) -> Result<[u8; SECTOR_BYTES], DiskFault> {
        self.disk.read(sector)
    }

    fn write(&mut self, sector: usize, bytes: &[u8; SECTOR_BYTES]) -> Result<(), DiskFault> {
        self.disk.write(sector, bytes)
    }

    fn flush(&mut self, sector: usize) -> Result<(), DiskFault> {
        self.disk.flush(sector)
    }

    // The tear is the source's, whatever tear is asked for.
    fn cut(&mut self, _tear: u64, supply: u64) {
        self.disk.cut(self.chance.draw(), supply);
    }
}

impl<D: SizedDisk, C: Chance> SizedDisk for ByChance<D, C> {
    ghost sized = { λ torn. D.sized torn.disk };
}
