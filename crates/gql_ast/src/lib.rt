//! The document of a GraphQL text, by the grammar of GraphQL October 2021, or the place of the text's first fault.
#![tactic(auto)]

mod cursor;
mod definitions;
mod limit;
mod lists;
mod selections;
mod values;
mod variables;
mod whole;

pub use gql_lex::{Token, TokenKind, TokenRun};
pub use request_model::{
    Definition, DefinitionList, Directive, DirectiveList, Document, GPair, GPairs, GValue,
    GValueList, OpWord, Selection, SelectionList, TypeRef, VarDef, VarDefList,
};
pub use whole::{LENGTH_LIMIT, ParseFault, parse};
