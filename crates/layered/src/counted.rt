// A disk that counts what is asked of it.
ghost use Rattle.std.specs.Prelude.{◌≡◌};
ghost use Rattle.layered.specs.Asked.{TellsEach};
ghost use Rattle.layered.specs.Layers.{none_asked, counted_moves};

use disk::{Disk, DiskFault, SizedDisk};
use record::SECTOR_BYTES;

// How often each call was made that may change a disk, denied ones with it. Each number stays at
// the greatest `u64`.
#[derive(Clone, Copy, PartialEq, Eq, Debug)]
pub struct Counts {
    pub writes: u64,
    pub flushes: u64,
    pub cuts: u64,
}

// Any disk, with the counts of what was asked of it. Reads are not counted, since they change nothing.
#[derive(Drop)]
pub struct Counted<D> {
    disk: D,
    counts: Counts,
}

impl<D: Disk> Counted<D> {
    // Counts from 0 on what is asked of a disk.
    pub fn new(disk: D) -> Counted<D>
        ensures { result ≡ record { disk = disk; counts = none_asked } }
    {
        let counts = Counts {
            writes: 0,
            flushes: 0,
            cuts: 0,
        };
        Counted { disk, counts }
    }

    // What was asked so far. Whatever operations made this disk of another counted one, each of
    // them is in it.
    pub fn counts(&self) -> Counts
        ensures value { result ≡ self.now.counts }
        ensures each { TellsEach D.moves self.now }
    {
        self.counts
    }

    // The disk below, to look at.
    pub fn disk(&self) -> &D
        ensures { result.now ≡ self.now.disk }
    {
        &self.disk
    }

    // The disk below, and what was asked of it.
    pub fn into_parts(self) -> (D, Counts)
        ensures { result ≡ (self.disk, self.counts) }
    {
        (self.disk, self.counts)
    }
}

impl<D: Disk> Disk for Counted<D> {
    ghost meaning = { λ counted. D.meaning counted.disk };

    ghost moves = { counted_moves D.moves };

    ghost shaped = { λ counted. D.shaped counted.disk };

    fn sectors(&self) -> usize {
        self.disk.sectors()
    }

    fn read(&self, sector: usize) -> Result<[u8; SECTOR_BYTES], DiskFault> {
        self.disk.read(sector)
    }

    fn write(&mut self, sector: usize, bytes: &[u8; SECTOR_BYTES]) -> Result<(), DiskFault> {
        self.counts.writes = self.counts.writes.saturating_add(1);
        self.disk.write(sector, bytes)
    }

    fn flush(&mut self, sector: usize) -> Result<(), DiskFault> {
        self.counts.flushes = self.counts.flushes.saturating_add(1);
        self.disk.flush(sector)
    }

    fn cut(&mut self, tear: u64, supply: u64) {
        self.counts.cuts = self.counts.cuts.saturating_add(1);
        self.disk.cut(tear, supply);
    }
}

impl<D: SizedDisk> SizedDisk for Counted<D> {
    ghost sized = { λ counted. D.sized counted.disk };
}
