// Both devices through write, flush, darkness and cut.
use crate::*;
use record::SECTOR_BYTES;
use std::test::Fail;

// Contents that are told apart by each of their bytes.
const OLD: [u8; SECTOR_BYTES] = [0xaa; SECTOR_BYTES];

const NEW: [u8; SECTOR_BYTES] = [0x55; SECTOR_BYTES];

// A write beside which nothing changes; a flush; then no supply is left.
#[test]
fn faithful_until_dark(rt: HostRuntime) -> Result<(), Fail> {
    let mut memory = [0; 320];
    let Ok(mut disk) = FaithfulDisk::new(&mut memory, 10, 2) else {
        return Err(Fail::new("size"));
    };
    disk.write(4, &NEW)?;
    assert_eq!(rt; disk.read(3)?, [0; SECTOR_BYTES]);
    assert_eq!(rt; disk.read(4)?, NEW);
    assert_eq!(rt; disk.read(5)?, [0; SECTOR_BYTES]);
    disk.flush(4)?;
    let dark = DiskFault {
        cause: Cause::Dark,
        operation: Operation::Write,
        sector: 4,
    };
    assert_eq!(rt; disk.write(4, &OLD), Err(dark));
    assert_eq!(rt; dark.number(), 12);
    assert_eq!(rt; dark.sector_told(), Some(4));
    assert_eq!(rt; disk.read(4)?, NEW);
    disk.cut(7, 1);
    assert_eq!(rt; disk.read(4)?, NEW);
    disk.write(4, &OLD)?;
    assert_eq!(rt; disk.read(4)?, OLD);
    Ok(())
}

// A cut before the flush leaves so many bytes of the new content, and 33 is 0 again.
#[test]
fn torn_at_three_tears(rt: HostRuntime) -> Result<(), Fail> {
    let mut memory = [0xaa; 320];
    let Ok(mut disk) = TornDisk::new(&mut memory, 10, 3) else {
        return Err(Fail::new("size"));
    };
    disk.write(9, &NEW)?;
    disk.cut(33, 2);
    assert_eq!(rt; disk.read(9)?, OLD);
    disk.write(9, &NEW)?;
    disk.cut(2, 1);
    let mut mixed = OLD;
    mixed[0] = 0x55;
    mixed[1] = 0x55;
    assert_eq!(rt; disk.read(9)?, mixed);
    disk.write(9, &NEW)?;
    disk.cut(32, 0);
    assert_eq!(rt; disk.read(9)?, NEW);
    Ok(())
}

// A flush, or a later write, settles the write before it.
#[test]
fn torn_and_settled(rt: HostRuntime) -> Result<(), Fail> {
    let mut memory = [0xaa; 320];
    let Ok(mut disk) = TornDisk::new(&mut memory, 10, 4) else {
        return Err(Fail::new("size"));
    };
    disk.write(0, &NEW)?;
    disk.write(1, &NEW)?;
    disk.cut(0, 2);
    assert_eq!(rt; disk.read(0)?, NEW);
    assert_eq!(rt; disk.read(1)?, OLD);
    disk.write(1, &NEW)?;
    disk.flush(1)?;
    disk.cut(0, 0);
    assert_eq!(rt; disk.read(1)?, NEW);
    let dark = DiskFault {
        cause: Cause::Dark,
        operation: Operation::Flush,
        sector: 1,
    };
    assert_eq!(rt; disk.flush(1), Err(dark));
    Ok(())
}

// A sector that is not there is told ahead of darkness.
#[test]
fn no_such_sector(rt: HostRuntime) -> Result<(), Fail> {
    let mut memory = [0; 320];
    let Ok(mut disk) = TornDisk::new(&mut memory, 10, 0) else {
        return Err(Fail::new("size"));
    };
    assert_eq!(rt; disk.sectors(), 10);
    let missing = DiskFault {
        cause: Cause::NoSector,
        operation: Operation::Write,
        sector: 10,
    };
    assert_eq!(rt; disk.write(10, &NEW), Err(missing));
    assert_eq!(rt; missing.number(), 3);
    assert_eq!(rt; missing.sector_told(), None);
    assert!(rt; disk.read(10).is_err());
    assert!(rt; disk.flush(10).is_err());
    Ok(())
}

// Memory that is not a disk's is handed back.
#[test]
fn too_few_sectors(rt: HostRuntime) -> Result<(), Fail> {
    let mut memory = [7; 288];
    let Err(back) = FaithfulDisk::new(&mut memory, 9, 1) else {
        return Err(Fail::new("nine sectors"));
    };
    assert_eq!(rt; back.number(), 3);
    assert_eq!(rt; back.memory.len(), 288);
    Ok(())
}

#[test]
fn a_byte_too_many(rt: HostRuntime) {
    let mut memory = [7; 321];
    assert!(rt; TornDisk::new(&mut memory, 10, 1).is_err());
}
