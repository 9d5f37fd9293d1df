// A trial of a disk: the current fails inside the write of one record, at every byte of it.
#![tactic(auto)]

mod cut;
mod table;

pub use cut::{left_by, newer, older};
pub use table::{Device, Outcome, Trial, count, cut_at, trials};

#[cfg(test)]
mod tests;
