use crate::plan::SharedPlan;
use query_model::SubKind;
use resp_keep::SharedKept;
use scalar_val::Str;

/// A subscription: its number, the connection and the id under which it was asked for, what becomes of it, its plan,
/// and the text of its last result.
#[derive(Drop)]
pub struct Held {
    pub number: u64,
    pub connection: u32,
    pub id: Str,
    pub kind: SubKind,
    pub plan: SharedPlan,
    pub last: Option<SharedKept>,
}
