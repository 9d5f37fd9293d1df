// That the promise over all histories speaks of something: kinds that keep the laws, and a history.
#![tactic(auto)]

mod by_hand;
mod kinds;

pub use by_hand::worked_history;
pub use kinds::kinds_are_lawful;
