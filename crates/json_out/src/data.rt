use scalar_val::{Bytes, Str, Val};
use serde_json::Value;

/// What the evaluation of a query gives: the text of its payload, the number of its root rows, and for a stream the
/// value of the cursor's column in the last root row. That value is Null where the query is no stream or has no row.
#[derive(Debug, Drop)]
pub struct Outcome {
    pub text: Bytes,
    pub rows: u64,
    pub last: Val,
}

/// A request: the text of a GraphQL document, the name of the operation that is wanted, if one is given, and the values
/// of the variables, which are a JSON object or null.
#[derive(Debug, Drop)]
pub struct Request {
    pub query: Str,
    pub operation: Option<Str>,
    pub variables: Value,
}
