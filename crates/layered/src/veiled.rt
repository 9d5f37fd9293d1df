// A disk of which nothing is known but what every disk promises.
ghost use Rattle.std.specs.Prelude.{◌≡◌};
ghost use Rattle.disk.specs.Moves.{anything};

use disk::{Disk, DiskFault, SizedDisk};
use record::SECTOR_BYTES;

// Any disk, with its own relations hidden: the meaning is all that there is to it.
#[derive(Drop)]
pub struct Veiled<D> {
    disk: D,
}

impl<D: Disk> Veiled<D> {
    // Hides what a disk says beyond its meaning.
    pub fn new(disk: D) -> Veiled<D>
        ensures { result ≡ record { disk = disk } }
    {
        Veiled { disk }
    }

    // The disk below.
    pub fn into_disk(self) -> D
        ensures { result ≡ self.disk }
    {
        self.disk
    }
}

impl<D: Disk> Disk for Veiled<D> {
    ghost meaning = { λ veiled. D.meaning veiled.disk };

    ghost moves = { anything };

    ghost shaped = { λ veiled. D.shaped veiled.disk };

    fn sectors(&self) -> usize {
        self.disk.sectors()
    }

    fn read(&self, sector: usize) -> Result<[u8; SECTOR_BYTES], DiskFault> {
        self.disk.read(sector)
    }

    fn write(&mut self, sector: usize, bytes: &[u8; SECTOR_BYTES]) -> Result<(), DiskFault> {
        self.disk.write(sector, bytes)
    }

    fn flush(&mut self, sector: usize) -> Result<(), DiskFault> {
        self.disk.flush(sector)
    }

    fn cut(&mut self, tear: u64, supply: u64) {
        self.disk.cut(tear, supply);
    }
}

impl<D: SizedDisk> SizedDisk for Veiled<D> {
    ghost sized = { λ veiled. D.sized veiled.disk };
}
