use scalar_val::{List, Str, Val};

pub type JList = List<JNode>;

pub type JPairs = List<JPair>;

/// A JSON value: a scalar, an array, or an object whose pairs stand in order.
#[cycle(json)]
#[derive(Debug, Drop)]
pub enum JNode {
    Scalar(Val),
    List(JList),
    Object(JPairs),
}

/// A key of an object and its value.
#[cycle(json)]
#[derive(Debug, Drop)]
pub struct JPair {
    pub key: Str,
    pub value: JNode,
}
