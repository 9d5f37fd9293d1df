use crate::*;
use std::test::Fail;

// The two records differ in bytes 4, 12 and 13 and in their checksums: up to 4 bytes of the write change nothing, and
// nothing less than all 32 makes the newer record.
#[test]
fn counts_of_a_torn_write(rt: HostRuntime) -> Result<(), Fail> {
    let before_flush = trials(rt.alloc(), Device::Torn, false)?;
    assert_eq!(rt; count(&before_flush, Outcome::Older), 5);
    assert_eq!(rt; count(&before_flush, Outcome::Blank), 27);
    assert_eq!(rt; count(&before_flush, Outcome::Newer), 1);
    Ok(())
}

#[test]
fn a_flushed_write_stands(rt: HostRuntime) -> Result<(), Fail> {
    let after_flush = trials(rt.alloc(), Device::Torn, true)?;
    assert_eq!(rt; count(&after_flush, Outcome::Newer), 33);
    let faithful = trials(rt.alloc(), Device::Faithful, false)?;
    assert_eq!(rt; count(&faithful, Outcome::Newer), 33);
    Ok(())
}
