//! The names and the kinds of tables and columns. Each takes no memory.

ghost use Rattle.std.specs.Prelude.{◌≡◌};
ghost use Rattle.std.specs.Option.{option_copied};
ghost use Rattle.query_model.specs.Names.{type_name, key_columns, column_at, kind_of, column_name};

use data_model::Column;
use role_schema::RoleView;
use scalar_val::Kind;

/// The name of the type of a table's objects, which is the table's name. It is empty where there is no such table.
pub fn type_name<'a>(view: &RoleView<'a>, table: u32) -> &'a str
    ensures { result.now ≡ type_name view.now table }
{
    match view.table_def(table) {
        Some(def) => def.name.as_str(),
        None => "",
    }
}

/// The numbers of a table's key columns. There are none where there is no such table.
pub fn key_columns<'a>(view: &RoleView<'a>, table: u32) -> &'a [u32]
    ensures { result.now ≡ key_columns view.now table }
{
    match view.table_def(table) {
        Some(def) => def.key.as_slice(),
        None => &[],
    }
}

fn column_at<'a>(view: &RoleView<'a>, table: u32, column: u32) -> Option<&'a Column>
    ensures { option_copied result ≡ column_at view.now table column }
{
    match view.table_def(table) {
        Some(def) => def.columns.get(column as usize),
        None => None,
    }
}

/// The kind of a column's values. It is `Text` where there is no such column.
pub fn kind_of(view: &RoleView<'_>, table: u32, column: u32) -> Kind
    ensures { result ≡ kind_of view.now table column }
{
    match column_at(view, table, column) {
        Some(column) => column.kind,
        None => Kind::Text,
    }
}

/// The name of a column. It is empty where there is no such column.
pub fn column_name<'a>(view: &RoleView<'a>, table: u32, column: u32) -> &'a str
    ensures { result.now ≡ column_name view.now table column }
{
    match column_at(view, table, column) {
        Some(column) => column.name.as_str(),
        None => "",
    }
}
