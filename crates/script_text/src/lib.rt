//! The text of scripts: lines are read into plain data, and replies are written as a transcript. Each reading and
//! writing is linear in the text.
#![tactic(auto)]

mod fault;
mod line;
mod number;
mod parts;
mod quoted;
#[cfg(test)]
mod tests;
mod transcript;

pub use fault::write_fault;
pub use line::{Line, read_line};
pub use machine::ScriptReason;
pub use number::read_number;
pub use transcript::{
    write_abandoned, write_binary, write_commit, write_done, write_empty, write_gone, write_job,
    write_none, write_not_open, write_open, write_published, write_recv, write_refused,
    write_report, write_sent, write_tick, write_timeout,
};
