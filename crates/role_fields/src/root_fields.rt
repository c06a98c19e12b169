//! The fields of the root.

ghost use Rattle.std.specs.Prelude.{◌≡◌, ◌≢◌, ◌++◌, MatchOption};
ghost use Rattle.query_model.specs.Names.{root_meant, table_called, table_by_key, table_streamed};
ghost use Rattle.role_fields.specs.Said.{root_said};

use crate::fields::Root;
use role_schema::RoleView;
use scalar_val::Word;

/// What stands before the end of a text, where it ends so.
fn before<'a>(text: &'a str, end: &str) -> Option<&'a str>
    ensures { MatchOption result ((front : _) → text.now ≢ front ++ end.now) (λ front. text.now ≡ front.now ++ end.now) }
{
    text.strip_suffix(end)
}

/// The table that the role sees whose name with a suffix is the name of the field.
fn table_called(view: &RoleView<'_>, suffix: &str, name: &str) -> Option<u32>
    ensures { result ≡ table_called view.now suffix.now name.now }
{
    match before(name, suffix) {
        Some(table_name) => view.table(table_name),
        None => None,
    }
}

fn table_by_key(view: &RoleView<'_>, name: &str) -> Option<u32>
    ensures { result ≡ table_by_key view.now name.now }
{
    match table_called(view, "_by_pk", name) {
        Some(table) => {
            if view.key_visible(table) {
                Some(table)
            } else {
                None
            }
        }
        None => None,
    }
}

fn table_streamed(view: &RoleView<'_>, word: Word, name: &str) -> Option<u32>
    ensures { result ≡ table_streamed view.now word name.now }
{
    match word {
        Word::Subscription => table_called(view, "_stream", name),
        Word::Query => None,
    }
}

/// What a field of the root is for the role: `T` is the rows of the table T, `T_by_pk` the row of a key where the role
/// sees the whole key, and `T_stream` the next rows of a stream where the operation is a subscription.
pub fn root(view: &RoleView<'_>, word: Word, name: &str) -> Root
    ensures { root_said result ≡ root_meant view.now word name.now }
{
    if let Some(table) = view.table(name) {
        return Root::RowsOf(table);
    }
    if let Some(table) = table_by_key(view, name) {
        return Root::RowOf(table);
    }
    match table_streamed(view, word, name) {
        Some(table) => Root::StreamOf(table),
        None => Root::NoRoot,
    }
}
