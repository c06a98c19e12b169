use scalar_val::{List, Str};
use sqlite_items::Boxed;

/// The word of an operation (GraphQL October 2021, section 2.3, "Operations"). A selection set that stands alone is a
/// query.
#[derive(Clone, Copy, Debug, PartialEq, Eq)]
pub enum OpWord {
    Query,
    Mutation,
    Subscription,
}

/// A type (section 2.11, "Type References"): a name, or a list of a type. `strict` tells whether `!` follows.
#[derive(Debug, Drop)]
pub enum TypeRef {
    Named { name: Str, strict: bool },
    Listed { item: Boxed<TypeRef>, strict: bool },
}

pub type GValueList = List<GValue>;

/// Names with their values, in written order: the arguments of a field or directive, or the fields of an object.
pub type GPairs = List<GPair>;

/// A value as it is written (section 2.9, "Input Values"). `Var` has the name without its `$`. `Int` keeps the digits
/// as they stand, and `Text` has the string with its escapes read.
#[cycle(value)]
#[derive(Debug, Drop)]
pub enum GValue {
    Var(Str),
    Int(Str),
    Text(Str),
    Bool(bool),
    Null,
    Enum(Str),
    Many(GValueList),
    Object(GPairs),
}

/// A name and its value.
#[cycle(value)]
#[derive(Debug, Drop)]
pub struct GPair {
    pub name: Str,
    pub value: GValue,
}

/// A directive (section 2.12, "Directives"), with its name without the `@`.
#[derive(Debug, Drop)]
pub struct Directive {
    pub name: Str,
    pub args: GPairs,
}

pub type DirectiveList = List<Directive>;

/// The definition of a variable of an operation (section 2.10, "Variables"), with its name without the `$`. `kind` is
/// its type.
#[derive(Debug, Drop)]
pub struct VarDef {
    pub name: Str,
    pub kind: TypeRef,
    pub default: Option<GValue>,
    pub directives: DirectiveList,
}

pub type VarDefList = List<VarDef>;

pub type SelectionList = List<Selection>;

/// A selection (section 2.4, "Selection Sets"): a field, a spread of a fragment, or an inline fragment. An empty
/// `select` of a field means that it has no selection set. `on` is the type condition.
#[derive(Debug, Drop)]
pub enum Selection {
    Field {
        alias: Option<Str>,
        name: Str,
        args: GPairs,
        directives: DirectiveList,
        select: SelectionList,
    },
    Spread {
        name: Str,
        directives: DirectiveList,
    },
    Inline {
        on: Option<Str>,
        directives: DirectiveList,
        select: SelectionList,
    },
}

/// A definition of a document: an operation (section 2.3) or a fragment (section 2.8), whose `on` is its type
/// condition.
#[derive(Debug, Drop)]
pub enum Definition {
    Operation {
        word: OpWord,
        name: Option<Str>,
        vars: VarDefList,
        directives: DirectiveList,
        select: SelectionList,
    },
    Fragment {
        name: Str,
        on: Str,
        directives: DirectiveList,
        select: SelectionList,
    },
}

pub type DefinitionList = List<Definition>;

/// A document (section 2.2), with its definitions in written order.
#[derive(Debug, Drop)]
pub struct Document {
    pub definitions: DefinitionList,
}
