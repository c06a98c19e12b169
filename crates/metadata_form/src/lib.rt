//! Metadata's text is read as TOML, and its keys and the forms of their values as a document.
#![tactic(auto)]

mod entries;
mod form;
mod toml_text;

pub use entries::read_document;
pub use form::{FormFault, read_json};
pub use toml_text::read_toml;
