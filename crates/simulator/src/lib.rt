// A simulator of the server: a request line in, a print line out, over disk memory handed in.
#![tactic(auto)]

mod answer;
mod any_kind;
mod device;
mod feed;
mod field;
mod file;
mod line;
mod partial;
mod print;
mod request;
mod simulator;
mod stage;

pub use answer::{Answer, Columns, Denial, columns_of};
pub use feed::Feed;
pub use file::{FileRun, print_file};
pub use partial::Partial;
pub use print::PRINT_BYTES;
pub use request::Item;
pub use simulator::Simulator;
