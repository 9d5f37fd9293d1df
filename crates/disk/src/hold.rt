// What a disk over memory holds back of its writes.
ghost use Rattle.std.specs.Prelude.{◌≡◌};
ghost use Rattle.disk.specs.Holding.{Holding, LawfulHolding};
ghost use Rattle.disk.specs.Memory.{sectors as cut_up, spare};

use crate::sectors::Sectors;
use record::SECTOR_BYTES;

// The writes that a disk holds back. A flush settles them; a cut may undo or tear them.
pub trait HoldBack: Drop {
    ghost holding: { Holding Self };

    // No write is held back.
    fn nothing() -> Self
        ensures { result ≡ holding.nothing };

    // Takes one write more: its sector, and the bytes that it replaced.
    fn hold(&mut self, sector: usize, old: [u8; SECTOR_BYTES])
        ensures { self.new ≡ holding.with_write self.old sector old };

    // Makes of the sectors what a cut leaves of them.
    fn tear(&self, tear: u64, sectors: &mut Sectors<'_>)
        ensures memory { let memory = sectors.old.memory.now in
            sectors.new.memory.now ≡ holding.left tear self.now memory }
        ensures sectors { let memory = sectors.old.memory.now in
            cut_up sectors.new.memory.now ≡ holding.left_sectors tear self.now (cut_up memory) }
        ensures spare { spare sectors.new.memory.now ≡ spare sectors.old.memory.now };

    // They keep the laws.
    ghost lawful: { LawfulHolding holding };
}
