//! The plain types of conditions and plans with the values that they are run with, and in `specs/` what they mean: when
//! a row meets a condition, which rows a selection takes, what a plan gives on a database, and when it fits one. Nothing
//! here knows roles, metadata or GraphQL documents.
#![tactic(auto)]

mod filter;
mod plan;

pub use data_model::ColumnList;
pub use filter::{
    Binding, Filter, FilterList, Items, Op, Operand, OperandList, Slot, SlotList, TruthValue,
    ValList,
};
pub use plan::{Field, FieldList, Order, OrderList, Plan, Select, Shape, StrList};
