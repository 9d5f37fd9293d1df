// A list of calls on a torn disk, with its answers in a list of their own.
use disk::TornDisk;
use history::{Answer, Call, Outcome, run_list};
use kind::SerialKind;
use record::{Identifier, Reading, Sequence};
use std::test::Fail;

// A request of a series.
fn give(series: u8) -> Call {
    let reading = Reading(0);
    Call::Give { series, reading }
}

// The number that an answer tells, if it is no denial.
fn number(answer: &Answer) -> Option<u64> {
    match *answer {
        Answer::Give(Ok(Identifier(number))) | Answer::Cut(Ok(Sequence(number))) => Some(number),
        Answer::Give(Err(_)) | Answer::Cut(Err(_)) => None,
    }
}

// The first calls of the history that `outage` prints, with the numbers that it prints.
#[test]
fn a_list_on_a_torn_disk(rt: HostRuntime) -> Result<(), Fail> {
    let mut memory = [0; 320];
    let Ok(disk) = TornDisk::new(&mut memory, 10, 5) else {
        return Err(Fail::new("size"));
    };
    let Ok(kind) = SerialKind::new(3) else {
        return Err(Fail::new("kind"));
    };
    let (tear, supply) = (20, 3);
    let cut = Call::Cut { tear, supply };
    let calls = [
        give(2),
        give(2),
        give(2),
        give(2),
        give(5),
        give(2),
        cut,
        give(5),
    ];
    let Outcome { server: _, answers } = run_list(rt.alloc(), disk, kind, &calls);
    let answers = answers?;
    let numbers = [
        Some(1),
        Some(2),
        Some(3),
        Some(4),
        None,
        None,
        Some(2),
        Some(1),
    ];
    assert_eq!(rt; answers.len(), 8);
    for (answer, expected) in answers.iter().zip(numbers) {
        assert_eq!(rt; number(answer), expected);
    }
    Ok(())
}
