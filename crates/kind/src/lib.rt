// Kinds of identifier: what each makes of a clock reading, a series and a rank.
#![tactic(auto)]

mod fault;
mod meaning;
mod serial;
mod snowflake;
#[cfg(test)]
mod tests;
mod time;

pub use fault::SettingFault;
pub use meaning::Kind;
pub use serial::{SerialKind, serial_limits};
pub use snowflake::{Parts, pack, take_apart};
pub use time::{Correction, Lease, TimeKind, time_limits};
