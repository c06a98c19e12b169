use crate::document::{GPairs, VarDefList};
use scalar_val::{List, Str, Word};

pub type StrList = List<Str>;

pub type FlatFieldList = List<FlatField>;

/// A field after field collection (GraphQL October 2021, section 6.3.2, "Field Collection"). `key` is its response key:
/// its alias, or else its name. `nested` tells whether it has a selection set, all of whose fields may have been
/// dropped. `conditions` are the type conditions that were met in its selection set, in the order in which they are
/// met, and `fields` the fields that were collected from it.
#[derive(Debug, Drop)]
pub struct FlatField {
    pub key: Str,
    pub name: Str,
    pub args: GPairs,
    pub nested: bool,
    pub conditions: StrList,
    pub fields: FlatFieldList,
}

/// An operation after field collection: its word, its variables in order of declaration, and the type conditions and
/// the fields of its selection set.
#[derive(Debug, Drop)]
pub struct Flat {
    pub kind: Word,
    pub vars: VarDefList,
    pub conditions: StrList,
    pub fields: FlatFieldList,
}

/// Why an operation isn't collected. Where several faults hold, the first one of this list counts.
#[derive(Clone, Copy, Debug, PartialEq, Eq)]
pub enum FlatFault {
    /// There is no operation, or none of the wanted name.
    NoOperation,
    /// No name is wanted, and there are several operations.
    AmbiguousOperation,
    /// The operation is a mutation.
    NotServed,
    /// A spread that is reached names no fragment.
    UnknownFragment,
    /// A fragment that is reached reaches itself.
    FragmentCycle,
    /// There is a directive other than `skip` and `include`, or one on a definition.
    NoDirective,
    /// A directive hasn't exactly one argument, `if` with a boolean.
    NotBoolean,
    /// There is a field at level 13, or there are more than 4,096 fields.
    TooLarge,
    /// Two definitions share a name, or two fields of one response key differ.
    Conflict,
    /// Memory was refused.
    NoMemory,
}
