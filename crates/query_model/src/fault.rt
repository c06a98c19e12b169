use scalar_val::{NoMemory, Str};

/// Why a request is refused. Where several causes hold, the first one of this list counts, but that those from
/// `NoField` to `BadCursor`, and with them `MissingVariable` and `WrongType`, also come in the order of their places.
#[derive(Clone, Copy, Debug, PartialEq, Eq)]
pub enum FaultKind {
    /// The text is no document, or it is too long.
    Syntax,
    /// There is no operation, or none of the wanted name.
    NoOperation,
    /// No name is wanted, and there are several operations.
    AmbiguousOperation,
    /// The operation is a mutation.
    NotServed,
    /// A spread names no fragment.
    UnknownFragment,
    /// A fragment reaches itself.
    FragmentCycle,
    /// There is a directive other than `skip` and `include`, or one on a definition.
    NoDirective,
    /// A directive hasn't exactly one argument, `if` with a boolean.
    NotBoolean,
    /// There is a field at level 13, or there are more than 4,096 fields.
    TooLarge,
    /// Two operations, two fragments or two variables share a name, or two fields of one response key differ.
    Conflict,
    /// The root has not exactly one field.
    NotOneRoot,
    /// A variable isn't declared, or is null where its type doesn't allow that.
    MissingVariable,
    /// A type isn't served, or a value isn't of the type that is wanted.
    WrongType,
    /// The role sees no such field, or a type condition isn't the type of its object.
    NoField,
    /// An argument or a key isn't known, stands twice, or is missing.
    NoArgument,
    /// Null is given where a value is wanted.
    NullOperand,
    /// A cursor isn't one.
    BadCursor,
    /// The session lacks a variable that a filter names.
    MissingSession,
    /// A session variable's value is no spelling of the kind that a filter wants.
    BadSession,
}

/// A refusal of a request. `at` is the byte at which a text is at fault, and else 0. `name` is the name that the
/// refusal speaks of, and empty where it speaks of none.
#[derive(Debug, Drop)]
pub struct QueryFault {
    pub kind: FaultKind,
    pub at: usize,
    pub name: Str,
}

/// Why a request isn't admitted.
#[derive(Debug, Drop)]
pub enum AdmitFault {
    /// The first fault that holds of the request.
    Refused(QueryFault),
    /// Memory was refused.
    NoMemory,
}

impl From<NoMemory> for AdmitFault {
    ghost use Rattle.std.specs.Prelude.{◌≡◌};
    ghost use Rattle.query_model.specs.declared.fault.AdmitFault.TheVariants.{NoMemory};

    ghost from_gives = { λ _ e. e ≡ NoMemory };

    fn from(_error: NoMemory) -> AdmitFault {
        AdmitFault::NoMemory
    }
}
