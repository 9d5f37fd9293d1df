// The ring log: records of reservations, in the sectors that their numbers name.
#![tactic(auto)]

mod fault;
mod known;
mod ring;
mod token;

pub use fault::{Interrupted, Particulars, RingFault, Work};
pub use known::{Known, Live};
pub use ring::{Ring, most_operations};
pub use token::{Blocks, Drawn, Reserved, Unconfirmed, Written};
