// Any list of calls on a server, and what none of them can make false.
#![tactic(auto)]

mod blank;
mod calls;
mod list;

pub use blank::{run_blank, run_serial};
pub use calls::{Answer, Call, Turn, make, run, serve};
pub use list::{Outcome, run_list, serve_list};
