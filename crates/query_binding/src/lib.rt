//! What a plan is run with: the values of the variables that stand in a query's text, those of the session's slots, and
//! the cursor.
#![tactic(auto)]

mod binding;
mod cursor;
mod names;
mod session;
#[cfg(test)]
mod tests;
mod text_names;

pub use binding::bind;
pub use cursor::initial_cursor;
pub use session::session_values;
pub use text_names::text_variables;
