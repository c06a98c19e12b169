use role_model::MetaFault;

/// Why a script ends before its end.
#[derive(Clone, Copy, Debug, PartialEq, Eq)]
pub enum ScriptReason {
    /// It ends within a line, or before the line `---` that ends the metadata.
    Cut,
    /// It has more bytes than a script may have.
    Size,
    /// The metadata has this fault, which is its first one.
    Metadata(MetaFault),
    /// The line is none of the forms of a script, or isn't UTF-8.
    NotEvent,
    /// The text of a `commit` is no transaction.
    Transaction,
    /// `open` of a connection that is known.
    Known,
    /// An event on a connection that isn't known.
    Unknown,
}
