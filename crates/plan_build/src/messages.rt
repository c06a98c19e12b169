ghost use Rattle.std.specs.Prelude.{◌≡◌, ◌++◌, ◌∷◌, [], IfOk, OnOk, codes, pos, string_bytes};
ghost use Rattle.std.specs.Fmt.{signed_decimal};
ghost use Rattle.query_model.specs.Refusals.{code_of, naming, message_of};

use itoa::Buffer;
use query_model::{FaultKind, QueryFault};
use scalar_val::{NoMemory, Str};
use std::alloc::Global;

/// The code of a refusal: the name of its kind.
pub fn fault_code(kind: FaultKind) -> &'static str
    ensures { result.now ≡ code_of kind }
{
    match kind {
        FaultKind::Syntax => "Syntax",
        FaultKind::NoOperation => "NoOperation",
        FaultKind::AmbiguousOperation => "AmbiguousOperation",
        FaultKind::NotServed => "NotServed",
        FaultKind::UnknownFragment => "UnknownFragment",
        FaultKind::FragmentCycle => "FragmentCycle",
        FaultKind::NoDirective => "NoDirective",
        FaultKind::NotBoolean => "NotBoolean",
        FaultKind::TooLarge => "TooLarge",
        FaultKind::Conflict => "Conflict",
        FaultKind::NotOneRoot => "NotOneRoot",
        FaultKind::MissingVariable => "MissingVariable",
        FaultKind::WrongType => "WrongType",
        FaultKind::NoField => "NoField",
        FaultKind::NoArgument => "NoArgument",
        FaultKind::NullOperand => "NullOperand",
        FaultKind::BadCursor => "BadCursor",
        FaultKind::MissingSession => "MissingSession",
        FaultKind::BadSession => "BadSession",
    }
}

fn put(out: &mut String, text: &str) -> Result<(), NoMemory>
    ensures { OnOk result (string_bytes out.new ≡ string_bytes out.old ++ text.now) }
{
    out.push_str(text)?;
    Ok(())
}

fn put_named(out: &mut String, words: &str, name: &str) -> Result<(), NoMemory>
    ensures { OnOk result (string_bytes out.new ≡ string_bytes out.old ++ naming words.now name.now) }
{
    put(out, words)?;
    put(out, ": ")?;
    put(out, name)
}

fn put_place(out: &mut String, at: usize) -> Result<(), NoMemory>
    ensures { OnOk result (string_bytes out.new
        ≡ string_bytes out.old ++ codes "syntax error at byte " ++ signed_decimal (pos at)) }
{
    put(out, "syntax error at byte ")?;
    put(out, Buffer::new().format(at))
}

fn put_message(out: &mut String, fault: &QueryFault) -> Result<(), NoMemory>
    ensures { OnOk result (string_bytes out.new ≡ string_bytes out.old ++ message_of fault.now) }
{
    let name = fault.name.as_str();
    match fault.kind {
        FaultKind::Syntax => put_place(out, fault.at),
        FaultKind::NoOperation => put(out, "no such operation"),
        FaultKind::AmbiguousOperation => put(out, "operation name needed"),
        FaultKind::NotServed => put(out, "operation type not served"),
        FaultKind::UnknownFragment => put(out, "no such fragment"),
        FaultKind::FragmentCycle => put(out, "fragment cycle"),
        FaultKind::NoDirective => put(out, "directive not served"),
        FaultKind::NotBoolean => put(out, "directive needs a boolean"),
        FaultKind::TooLarge => put(out, "selection too large"),
        FaultKind::Conflict => put(out, "fields conflict"),
        FaultKind::NotOneRoot => put(out, "one root field needed"),
        FaultKind::MissingVariable => put_named(out, "missing variable", name),
        FaultKind::WrongType => put_named(out, "wrong type", name),
        FaultKind::NoField => put_named(out, "no such field", name),
        FaultKind::NoArgument => put_named(out, "bad argument", name),
        FaultKind::NullOperand => put_named(out, "null operand", name),
        FaultKind::BadCursor => put_named(out, "bad cursor", name),
        FaultKind::MissingSession => put_named(out, "missing session variable", name),
        FaultKind::BadSession => put_named(out, "bad session variable", name),
    }
}

/// The message of a refusal, as it stands in the server's `error`: what is wrong, then for a text that is no document
/// the byte at which it is at fault, and for a fault that speaks of a name that name. `NoMemory` where memory is refused.
pub fn fault_text(alloc: Global, fault: &QueryFault) -> Result<Str, NoMemory>
    ensures { IfOk result (λ text. text ≡ message_of fault.now) }
{
    let mut out = String::new(alloc);
    put_message(&mut out, fault)?;
    Ok(Str::from_string(out))
}
