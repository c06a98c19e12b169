//! The fields of a table's objects.

ghost use Rattle.std.specs.Prelude.{◌≡◌};
ghost use Rattle.query_model.specs.Names.{meant};
ghost use Rattle.role_fields.specs.Said.{meant_said};

use crate::fields::Meant;
use role_schema::RoleView;

/// What a field of an object of the table of a number is for the role. It takes no memory.
pub fn meant<'a>(view: &RoleView<'a>, table: u32, name: &str) -> Meant<'a>
    ensures { meant_said result ≡ meant view.now table name.now }
{
    if name == "__typename" {
        return Meant::Typename;
    }
    if let Some(column) = view.column(table, name) {
        return Meant::AColumn(column);
    }
    match view.link(table, name) {
        Some(link) => Meant::ALink(link),
        None => Meant::Unseen,
    }
}
