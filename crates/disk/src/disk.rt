// What every disk promises.
ghost use Rattle.std.specs.Prelude.{◌≡◌, MatchResult};
ghost use Rattle.disk.specs.Memory.{IsSize};
ghost use Rattle.disk.specs.Meaning.{Meaning, Shaped, count, found, answer_of, Wrote, Flushed, Cut};
ghost use Rattle.disk.specs.Moves.{Moves};
ghost use Rattle.disk.specs.declared.fault.Operation.TheVariants.{Write, Flush};

use crate::fault::DiskFault;
use record::SECTOR_BYTES;

// A disk, by what is read from it, what it keeps, and how many writes and flushes still succeed.
pub trait Disk {
    ghost meaning: { Self → Meaning };

    // What each call makes of one disk into another, denied calls with it.
    ghost moves: { Moves Self };

    // The number of sectors.
    fn sectors(&self) -> usize
        ensures count { result ≡ count (meaning self.now) };

    // The bytes of a sector.
    fn read(&self, sector: usize) -> Result<[u8; SECTOR_BYTES], DiskFault>
        ensures { result ≡ found (meaning self.now).reading sector };

    // Replaces a sector. What is kept of it is open until a flush.
    fn write(&mut self, sector: usize, bytes: &[u8; SECTOR_BYTES]) -> Result<(), DiskFault>
        ensures answer { result ≡ answer_of Write (meaning self.old) sector }
        ensures effect { MatchResult result
            (λ _. Wrote (meaning self.old) sector bytes.now (meaning self.new))
            (λ _. meaning self.new ≡ meaning self.old) }
        ensures moves { moves.writes self.old sector bytes.now self.new };

    // Settles all writes. The sector is that of the latest write, which a fault then tells.
    fn flush(&mut self, sector: usize) -> Result<(), DiskFault>
        ensures answer { result ≡ answer_of Flush (meaning self.old) sector }
        ensures effect { MatchResult result
            (λ _. Flushed (meaning self.old) (meaning self.new))
            (λ _. meaning self.new ≡ meaning self.old) }
        ensures moves { moves.flushes self.old sector self.new };

    // The current fails and comes back, with so many writes and flushes to succeed. The tear says how a write is torn.
    fn cut(&mut self, tear: u64, supply: u64)
        ensures meaning { Cut (meaning self.old) supply (meaning self.new) }
        ensures moves { moves.cuts self.old tear supply self.new };

    // Sectors have 32 bytes, and as many are kept as are read.
    ghost shaped: { (disk : Self) → Shaped (meaning disk) };
}

// A disk of a size that the rules name: 10 to 2,048 sectors.
pub trait SizedDisk: Disk {
    ghost sized: { (disk : Self) → IsSize (count (Self.meaning disk)) };
}
