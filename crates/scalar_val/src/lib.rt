//! The values that columns hold, the texts and lists that the other crates are made of, and the order of values.
#![tactic(auto)]

mod json_text;
mod list;
mod spelling;
mod steps;
#[cfg(test)]
mod tests;
mod text;
mod val;
mod word;

pub use json_text::{write_json, write_quoted};
pub use list::List;
pub use spelling::{ReadFault, fit_scalar, read_text};
pub use steps::Steps;
pub use text::{Bytes, NoMemory, Str};
pub use val::{Kind, Val, cell, cmp, copy_val, order_laws, same_kind};
pub use word::Word;
