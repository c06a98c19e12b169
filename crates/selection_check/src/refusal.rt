ghost use Rattle.std.specs.Prelude.{◌≡◌};
ghost use Rattle.query_model.specs.Refusals.{refused, refused_if};
ghost use Rattle.selection_check.specs.Told.{told};

use query_model::FaultKind;

/// A fault with the name that it speaks of, which stands in the request, in the metadata or in the program.
#[derive(Clone, Copy, Debug)]
pub struct Refusal<'a> {
    pub kind: FaultKind,
    pub name: &'a str,
}

pub fn refused(kind: FaultKind, name: &str) -> Option<Refusal<'_>>
    ensures { told result ≡ refused kind name.now }
{
    Some(Refusal { kind, name })
}

pub fn refused_if(is_fault: bool, kind: FaultKind, name: &str) -> Option<Refusal<'_>>
    ensures { told result ≡ refused_if is_fault kind name.now }
{
    if is_fault { refused(kind, name) } else { None }
}
