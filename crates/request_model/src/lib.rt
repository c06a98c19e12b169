//! The plain data types of GraphQL requests: lexemes, documents and flat selections. They have no logic. What a text
//! of a request means is defined in `specs/`, over these types.
#![tactic(auto)]

mod document;
mod flat;
mod laws;
mod token;

pub use document::{
    Definition, DefinitionList, Directive, DirectiveList, Document, GPair, GPairs, GValue,
    GValueList, OpWord, Selection, SelectionList, TypeRef, VarDef, VarDefList,
};
pub use flat::{Flat, FlatFault, FlatField, FlatFieldList, StrList};
pub use laws::{canonical_texts, faults, flat_selections};
pub use scalar_val::Word;
pub use token::{Token, TokenKind};
