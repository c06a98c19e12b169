//! The server: its works, and the call that starts them.
#![tactic(auto)]

mod main_call;
mod read;
mod start;
mod task;
mod work;

pub use commit_server::{CommitEnd, serve_commits};
pub use connection_server::{End, serve_conn};
pub use main_call::serve_main;
pub use polling_worker::poll_worker;
pub use task::{PortEnd, ServeWork, Task, TaskEnd, Worked};

#[cfg(test)]
mod tests;
