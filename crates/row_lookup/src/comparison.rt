use plan_core::Op;
use scalar_val::Val;

/// What the value in a column has to be, as of a condition: the comparison with another value is yes.
#[derive(Clone, Copy)]
pub struct Comparison<'r> {
    pub column: u32,
    pub op: Op,
    pub value: &'r Val,
}

/// Comparisons of which a row has to meet both, where they are there. The first serves to find rows where its column is
/// the first one of the key, and the second where it asks for a value in the column that the rows are chained by.
#[derive(Clone, Copy)]
pub struct Comparisons<'r> {
    pub by_key: Option<Comparison<'r>>,
    pub by_chain: Option<Comparison<'r>>,
}
