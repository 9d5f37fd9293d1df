// The server: identifiers of eight series, out of blocks that are reserved in the ring.
#![tactic(auto)]

mod fault;
mod server;
mod state;

pub use fault::ServerFault;
pub use server::Server;
pub use state::{State, Up};
