//! The types of variables.

ghost use Rattle.std.specs.Prelude.{◌≡◌};
ghost use Rattle.query_model.specs.Variables.{kind_named, single_type, list_type, item_type_by, type_of};
ghost use Rattle.request_model.specs.declared.document.TypeRef.TheViews.{out-TypeRef};

use query_model::VarType;
use request_model::TypeRef;
use scalar_val::Kind;

fn kind_named(name: &str) -> Option<Kind>
    ensures { result ≡ kind_named name.now }
{
    match name {
        "Boolean" => Some(Kind::Bool),
        "Int" => Some(Kind::Int),
        "bigint" => Some(Kind::Big),
        "String" => Some(Kind::Text),
        "uuid" => Some(Kind::Uuid),
        _ => None,
    }
}

fn single_type(name: &str, strict: bool) -> Option<VarType>
    ensures { result ≡ single_type name.now strict }
{
    match kind_named(name) {
        Some(kind) => Some(VarType {
            kind,
            listed: false,
            strict,
            strict_item: false,
        }),
        None => None,
    }
}

fn list_type(strict: bool, item: VarType) -> VarType
    ensures { result ≡ list_type strict item }
{
    VarType {
        kind: item.kind,
        listed: true,
        strict,
        strict_item: item.strict,
    }
}

fn item_type(item: &TypeRef) -> Option<VarType>
    ensures { result ≡ item_type_by (out-TypeRef item.now) }
{
    match item {
        TypeRef::Named { name, strict } => single_type(name.as_str(), *strict),
        TypeRef::Listed { .. } => None,
    }
}

/// The type that a written one is, where it is served: a kind or a list of a kind.
pub(crate) fn type_of(written: &TypeRef) -> Option<VarType>
    ensures { result ≡ type_of written.now }
{
    match written {
        TypeRef::Named { name, strict } => single_type(name.as_str(), *strict),
        TypeRef::Listed { item, strict } => match item_type(item.get()) {
            Some(item) => Some(list_type(*strict, item)),
            None => None,
        },
    }
}
