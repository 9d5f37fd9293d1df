// Places a power cut inside the write of one record, at every byte of it, and prints what the sector then reads as.
#![tactic(auto)]

use std::io;
use trial::{Device, Outcome, Trial, count, newer, older, trials};

// A heading, and a line for each trial.
fn print_block(rt: &impl Print, heading: &str, block: &[Trial]) -> io::Result<()> {
    println!(rt; "")?;
    println!(rt; "{heading}")?;
    for trial in block {
        println!(rt; "  {trial}")?;
    }
    Ok(())
}

// Makes the three tables, and prints them with the counts.
fn main(rt: HostRuntime) -> io::Result<()> {
    let unflushed = trials(rt.alloc(), Device::Torn, false)?;
    let flushed = trials(rt.alloc(), Device::Torn, true)?;
    let faithful = trials(rt.alloc(), Device::Faithful, false)?;
    let old = older();
    let new = newer();
    println!(rt;
        "What a power cut leaves of a record that is being written over an older one of its series, on a disk of 10 sectors."
    )?;
    println!(rt;
        "Older record: sequence number {}, end {}, flushed. Newer record: sequence number {}, end {}. Both name sector 3.",
        old.sequence.0, old.end.0, new.sequence.0, new.end.0
    )?;
    print_block(
        &rt,
        "Torn disk, cut before the flush. The tear is how many bytes of the newer record reached the disk.",
        &unflushed,
    )?;
    print_block(&rt, "Torn disk, cut after the flush.", &flushed)?;
    print_block(
        &rt,
        "Faithful disk, on which a write lasts as soon as it is made, cut before the flush.",
        &faithful,
    )?;
    println!(rt; "")?;
    println!(rt;
        "Torn before the flush: {} older, {} newer, {} blank of {} cuts; after it: {} newer of {}. Faithful: {} newer of {}.",
        count(&unflushed, Outcome::Older),
        count(&unflushed, Outcome::Newer),
        count(&unflushed, Outcome::Blank),
        unflushed.len(),
        count(&flushed, Outcome::Newer),
        flushed.len(),
        count(&faithful, Outcome::Newer),
        faithful.len()
    )
}
