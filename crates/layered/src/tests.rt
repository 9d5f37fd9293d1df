// Both disks over the two disks over memory.
use crate::*;
use disk::{Disk, FaithfulDisk, TornDisk};
use record::{Rank, SECTOR_BYTES};
use ring::Ring;
use std::test::Fail;

const NEW: [u8; SECTOR_BYTES] = [0x55; SECTOR_BYTES];

// A source that gives one number after the other.
#[derive(Drop)]
struct Rising(u64);

impl Chance for Rising {
    fn draw(&mut self) -> u64 {
        let drawn = self.0;
        self.0 = drawn.wrapping_add(1);
        drawn
    }
}

// Writes, flushes and cuts are counted, denied ones with them; what recovery reads is not.
#[test]
fn counts_what_is_asked(rt: HostRuntime) -> Result<(), Fail> {
    let mut memory = [0; 320];
    let Ok(below) = FaithfulDisk::new(&mut memory, 10, 2) else {
        return Err(Fail::new("size"));
    };
    let mut disk = Counted::new(below);
    assert!(rt; Ring::recover(&disk, 1, Rank(9)).is_ok());
    disk.write(4, &NEW)?;
    disk.flush(4)?;
    assert!(rt; disk.write(5, &NEW).is_err());
    assert!(rt; disk.flush(10).is_err());
    disk.cut(0, 1);
    let asked = Counts {
        writes: 2,
        flushes: 2,
        cuts: 1,
    };
    assert_eq!(rt; disk.counts(), asked);
    assert_eq!(rt; disk.disk().read(4)?, NEW);
    let (mut below, counts) = disk.into_parts();
    assert!(rt; below.write(5, &NEW).is_ok());
    assert_eq!(rt; counts, asked);
    Ok(())
}

// A cut tears at the number that is drawn, not at the one that is asked for.
#[test]
fn torn_by_chance(rt: HostRuntime) -> Result<(), Fail> {
    let mut memory = [0; 320];
    let Ok(below) = TornDisk::new(&mut memory, 10, 9) else {
        return Err(Fail::new("size"));
    };
    let mut disk = ByChance::new(below, Rising(31));
    disk.write(4, &NEW)?;
    disk.cut(0, 9);
    let mut torn = NEW;
    torn[31] = 0;
    assert_eq!(rt; disk.read(4)?, torn);
    disk.write(4, &NEW)?;
    disk.cut(0, 9);
    assert_eq!(rt; disk.read(4)?, NEW);
    assert_eq!(rt; disk.disk().sectors(), 10);
    let (below, source) = disk.into_parts();
    assert_eq!(rt; below.sectors(), 10);
    assert_eq!(rt; source.0, 33);
    Ok(())
}
