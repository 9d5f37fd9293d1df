// Worked examples. What antt computes of the definitions is asked here of the code.
use crate::fault::SettingFault;
use crate::meaning::Kind;
use crate::serial::SerialKind;
use crate::snowflake::{Parts, pack, take_apart};
use crate::time::{Correction, Lease, TimeKind};
use record::{Identifier, Rank, Reading};
use std::test::Fail;

#[test]
fn a_byte_holds_a_signed_number(rt: HostRuntime) {
    assert_eq!(rt; Correction(127).seconds(), 127);
    assert_eq!(rt; Correction(128).seconds(), -128);
    assert_eq!(rt; Correction(253).seconds(), -3);
}

#[test]
fn three_seconds_back(rt: HostRuntime) -> Result<(), Fail> {
    let kind = TimeKind::new(Lease::new(1)?, 0, Correction(253))?;
    assert_eq!(rt; kind.floor(Reading(3000)).ok_or("unlawful")?.0, 0);
    assert!(rt; kind.floor(Reading(2999)).is_none());
    Ok(())
}

#[test]
fn the_last_millisecond(rt: HostRuntime) -> Result<(), Fail> {
    let kind = TimeKind::new(Lease::new(1)?, 0, Correction(0))?;
    let last = kind.floor(Reading(2_199_023_255_551)).ok_or("unlawful")?;
    assert_eq!(rt; last.0, 9_007_199_254_736_896);
    assert!(rt; kind.floor(Reading(2_199_023_255_552)).is_none());
    assert!(rt; kind.floor(Reading(u64::MAX)).is_none());
    Ok(())
}

#[test]
fn box_one_series_three(rt: HostRuntime) -> Result<(), Fail> {
    let kind = TimeKind::new(Lease::new(60_000)?, 1, Correction(0))?;
    let rank = Rank(1000 * 4096 + 5);
    assert_eq!(rt;
        kind.identifier(3, rank).ok_or("no identifier")?.0,
        4_194_349_061
    );
    assert!(rt; kind.identifier(8, rank).is_none());
    assert_eq!(rt; kind.block_size(), 245_760_000);
    Ok(())
}

#[test]
fn the_last_serial_label(rt: HostRuntime) -> Result<(), Fail> {
    let kind = SerialKind::new(10_000)?;
    assert_eq!(rt;
        kind.identifier(0, Rank(999_999_998))
            .ok_or("no identifier")?
            .0,
        999_999_999
    );
    assert!(rt; kind.identifier(0, Rank(999_999_999)).is_none());
    assert_eq!(rt; kind.block_size(), 10_000);
    Ok(())
}

// A tweet of 28 June 2022, in milliseconds since 4 November 2010, 01:42:54.657 UTC.
#[test]
fn an_identifier_of_twitter(rt: HostRuntime) -> Result<(), Fail> {
    let parts = Parts {
        milliseconds: 367_597_485_448,
        worker: 378,
        step: 0,
    };
    assert_eq!(rt; take_apart(Identifier(1_541_815_603_606_036_480))?, parts);
    assert_eq!(rt; pack(parts)?.0, 1_541_815_603_606_036_480);
    Ok(())
}

// The example in Discord's reference, in milliseconds since the start of 2015: worker 1, process 0, increment 7.
#[test]
fn an_identifier_of_discord(rt: HostRuntime) -> Result<(), Fail> {
    let parts = Parts {
        milliseconds: 41_944_705_796,
        worker: 32,
        step: 7,
    };
    assert_eq!(rt; take_apart(Identifier(175_928_847_299_117_063))?, parts);
    assert_eq!(rt; pack(parts)?.0, 175_928_847_299_117_063);
    Ok(())
}

#[test]
fn what_is_out_of_range(rt: HostRuntime) -> Result<(), Fail> {
    assert!(rt; SerialKind::new(10_001).is_err());
    assert!(rt; Lease::new(0).is_err());
    assert!(rt; TimeKind::new(Lease::new(1)?, 128, Correction(0)).is_err());
    assert_eq!(rt; SettingFault::Box.number(), 4);
    Ok(())
}
