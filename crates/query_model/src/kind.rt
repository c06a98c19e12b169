/// What becomes of a query: a live one is answered again whenever its result changes, a query operation is answered
/// once, and a stream sends the next rows along its cursor.
#[derive(Clone, Copy, Debug, PartialEq, Eq)]
pub enum SubKind {
    Live,
    Once,
    Stream,
}
