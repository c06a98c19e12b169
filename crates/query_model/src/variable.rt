use plan_model::Slot;
use scalar_val::{Kind, List, Str};

/// The type of a variable (GraphQL October 2021, section 2.11): a kind of value, or a list of a kind. `strict` tells
/// whether null is refused as the value, and `strict_item` whether it is refused as an item of a list.
#[derive(Clone, Copy, Debug, PartialEq, Eq)]
pub struct VarType {
    pub kind: Kind,
    pub listed: bool,
    pub strict: bool,
    pub strict_item: bool,
}

/// A variable of an operation with its type and the value that counts: the one that is given, else the default, else
/// null. Of a list type the value is a list, or null where the list is null.
#[derive(Debug, Drop)]
pub struct Variable {
    pub name: Str,
    pub type_: VarType,
    pub value: Slot,
}

pub type VariableList = List<Variable>;
