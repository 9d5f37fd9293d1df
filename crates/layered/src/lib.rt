// Disks laid over any other disk.
#![tactic(auto)]

mod chance;
mod counted;
mod veiled;

pub use chance::{ByChance, Chance};
pub use counted::{Counted, Counts};
pub use veiled::Veiled;

#[cfg(test)]
mod tests;
