//! Conditions on rows and the values that they are run with.
#![tactic(auto)]

mod binding;
mod condition;
#[cfg(test)]
mod tests;

pub use binding::{copy_binding, copy_slot};
pub use condition::truth;
pub use plan_model::{
    Binding, ColumnList, Field, FieldList, Filter, FilterList, Items, Op, Operand, OperandList,
    Order, OrderList, Plan, Select, Shape, Slot, SlotList, StrList, TruthValue, ValList,
};
