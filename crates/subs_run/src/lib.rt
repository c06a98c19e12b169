//! Scripts, from bytes to bytes: reads a script from a source, runs it line by line, and writes its transcript into a
//! sink; or runs a generated script, and sums up its transcript.
#![tactic(auto)]

mod answer;
mod evaluation;
mod event;
mod jobs;
mod line_result;
mod load;
mod main_call;
mod poll;
mod progress;
mod put;
mod reader;
mod runner;
mod script;
mod words;

pub use answer::{RunEnd, ScriptReason};
pub use main_call::run_main;
pub use script::run_script;

#[cfg(test)]
mod rows;
#[cfg(test)]
mod tests;
