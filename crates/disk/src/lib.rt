// A disk of sectors whose power may fail, and two such disks over memory handed in.
#![tactic(auto)]

mod blank;
mod disk;
mod faithful;
mod fault;
mod hold;
mod memory;
mod sectors;
mod size;
mod torn;

pub use blank::blank_disk;
pub use disk::{Disk, SizedDisk};
pub use faithful::{FaithfulDisk, WriteThrough};
pub use fault::{Cause, DiskFault, Operation};
pub use hold::HoldBack;
pub use memory::MemoryDisk;
pub use sectors::Sectors;
pub use size::{BadSize, LEAST_SECTORS, MOST_SECTORS, is_right_size, limits};
pub use torn::{Held, LatestWrite, TornDisk};

#[cfg(test)]
mod tests;
