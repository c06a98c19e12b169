use scalar_val::{Kind, List, Str, Val};

/// A session variable that a filter names, in lower case, and the kind that is wanted of its value.
#[derive(Debug, Drop)]
pub struct SessionSlot {
    pub name: Str,
    pub kind: Kind,
}

pub type SessionSlotList = List<SessionSlot>;

/// A session variable that a filter names, with its value.
#[derive(Debug, Drop)]
pub struct SessionValue {
    pub slot: SessionSlot,
    pub value: Val,
}

pub type SessionValueList = List<SessionValue>;
