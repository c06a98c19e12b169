use scalar_val::{List, Val};
use sqlite_items::Boxed;

/// The values of a list variable.
pub type ValList = List<Val>;

pub type OperandList = List<Operand>;

pub type FilterList = List<Filter>;

pub type SlotList = List<Slot>;

/// A comparison of Hasura's boolean expressions: `_eq`, `_neq`, `_gt`, `_gte`, `_lt` and `_lte`.
#[derive(Clone, Copy, Debug, PartialEq, Eq)]
pub enum Op {
    Eq,
    Neq,
    Gt,
    Gte,
    Lt,
    Lte,
}

/// Where one value of a condition comes from: it is written there, or stands in a slot of variables or of session
/// variables, which are numbered from 0.
#[derive(Debug, Drop)]
pub enum Operand {
    Const(Val),
    Var(u32),
    Sess(u32),
}

/// Where the values of `_in` and `_nin` come from: each by itself, or all from a slot that holds a list.
#[derive(Debug, Drop)]
pub enum Items {
    Each(OperandList),
    Var(u32),
}

/// A condition on a row, whose columns are numbered from 0.
#[derive(Debug, Drop)]
pub enum Filter {
    And(FilterList),
    Or(FilterList),
    Not(Boxed<Filter>),
    Cmp {
        column: u32,
        op: Op,
        operand: Operand,
    },
    /// `_in`, and `_nin` where it is negated.
    Among {
        column: u32,
        negated: bool,
        items: Items,
    },
    /// `_is_null`: the column is null exactly where `want` is true.
    IsNull {
        column: u32,
        want: Operand,
    },
}

/// SQL's three truth values.
#[derive(Clone, Copy, Debug, PartialEq, Eq)]
pub enum TruthValue {
    Yes,
    No,
    Unknown,
}

/// What a variable holds.
#[derive(Debug, Drop)]
pub enum Slot {
    One(Val),
    Many(ValList),
}

/// The values that a plan is run with. The cursor is null where the plan is no stream.
#[derive(Debug, Drop)]
pub struct Binding {
    pub vars: SlotList,
    pub session: ValList,
    pub cursor: Val,
}
