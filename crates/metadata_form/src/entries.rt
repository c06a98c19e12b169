ghost use Rattle.std.specs.Prelude.{◌≡◌, Some, None, Err, IfOk};
ghost use Rattle.toml.specs.Data.{as_table};
ghost use Rattle.toml.specs.View.{view, table_view};
ghost use Rattle.role_model.specs.MetadataForm.{column_in, column_of, link_in, link_of, permission_in, permission_of};
ghost use Rattle.role_model.specs.MetadataForm.{table_in, table_of, document_in, document_of};

use crate::form::{
    FormFault, FromToml, bool_or, filled_list_at, filled_text_at, filled_text_if_any, has_only,
    integer_if_any, integer_or, json_at, kind_at, list_at, list_or_none_at, text_at, text_if_any,
    version_at,
};
use data_model::Column;
use role_model::{Document, LinkEntry, PermissionEntry, TableEntry};
use std::alloc::Global;
use toml::{Table, Value};

fn read_column(alloc: Global, table: &Table) -> Result<Column, FormFault>
    ensures ok { IfOk result (λ x. column_in (table_view table.now) ≡ Some x) }
    ensures bad { result ≡ Err FormFault.Form → column_in (table_view table.now) ≡ None }
{
    let name = text_at(alloc, table, "name")?;
    let kind = kind_at(table, "type")?;
    let nullable = bool_or(table, "nullable", false)?;
    Ok(Column {
        name,
        kind,
        nullable,
    })
}

impl FromToml for Column {
    ghost reads = { column_of };

    fn from_toml(alloc: Global, value: &Value) -> Result<Column, FormFault> {
        match value.as_table() {
            Some(table) if has_only(table, &["name", "type", "nullable"]) => read_column(
                alloc, table,
            ),
            _ => Err(FormFault::Form),
        }
    }
}

fn read_link(alloc: Global, table: &Table) -> Result<LinkEntry, FormFault>
    ensures ok { IfOk result (λ x. link_in (table_view table.now) ≡ Some x) }
    ensures bad { result ≡ Err FormFault.Form → link_in (table_view table.now) ≡ None }
{
    let name = text_at(alloc, table, "name")?;
    let target = text_at(alloc, table, "table")?;
    let from = filled_list_at(alloc, table, "from")?;
    let to = filled_list_at(alloc, table, "to")?;
    Ok(LinkEntry {
        name,
        table: target,
        from,
        to,
    })
}

impl FromToml for LinkEntry {
    ghost reads = { link_of };

    fn from_toml(alloc: Global, value: &Value) -> Result<LinkEntry, FormFault> {
        match value.as_table() {
            Some(table) if has_only(table, &["name", "table", "from", "to"]) => read_link(
                alloc, table,
            ),
            _ => Err(FormFault::Form),
        }
    }
}

fn read_permission(alloc: Global, table: &Table) -> Result<PermissionEntry, FormFault>
    ensures ok { IfOk result (λ x. permission_in (table_view table.now) ≡ Some x) }
    ensures bad { result ≡ Err FormFault.Form → permission_in (table_view table.now) ≡ None }
{
    let role = filled_text_at(alloc, table, "role")?;
    let columns = list_at(alloc, table, "columns")?;
    let filter = json_at(alloc, table, "filter")?;
    let limit = integer_if_any(table, "limit", 0, 2147483647)?;
    Ok(PermissionEntry {
        role,
        columns,
        filter,
        limit,
    })
}

impl FromToml for PermissionEntry {
    ghost reads = { permission_of };

    fn from_toml(alloc: Global, value: &Value) -> Result<PermissionEntry, FormFault> {
        match value.as_table() {
            Some(table) if has_only(table, &["role", "columns", "filter", "limit"]) =>
                read_permission(alloc, table),
            _ => Err(FormFault::Form),
        }
    }
}

fn read_table(alloc: Global, table: &Table) -> Result<TableEntry, FormFault>
    ensures ok { IfOk result (λ x. table_in (table_view table.now) ≡ Some x) }
    ensures bad { result ≡ Err FormFault.Form → table_in (table_view table.now) ≡ None }
{
    let name = text_at(alloc, table, "name")?;
    let key = filled_list_at(alloc, table, "key")?;
    let columns = filled_list_at(alloc, table, "columns")?;
    let unique = list_or_none_at(alloc, table, "unique")?;
    let max_rows = integer_or(table, "max_rows", 1, 1048576, 1048576)?;
    let object = list_or_none_at(alloc, table, "object")?;
    let array = list_or_none_at(alloc, table, "array")?;
    let select = list_or_none_at(alloc, table, "select")?;
    Ok(TableEntry {
        name,
        key,
        columns,
        unique,
        max_rows,
        object,
        array,
        select,
    })
}

impl FromToml for TableEntry {
    ghost reads = { table_of };

    fn from_toml(alloc: Global, value: &Value) -> Result<TableEntry, FormFault> {
        match value.as_table() {
            Some(table)
                if has_only(
                    table,
                    &[
                        "name", "key", "columns", "unique", "max_rows", "object", "array", "select",
                    ],
                ) => { read_table(alloc, table) }
            _ => Err(FormFault::Form),
        }
    }
}

fn read_keys(alloc: Global, table: &Table) -> Result<Document, FormFault>
    ensures ok { IfOk result (λ x. document_in (table_view table.now) ≡ Some x) }
    ensures bad { result ≡ Err FormFault.Form → document_in (table_view table.now) ≡ None }
{
    let version = version_at(table, "version")?;
    let batch_size = integer_or(table, "batch_size", 1, 1000, 100)?;
    let refetch_ms = integer_or(table, "refetch_ms", 1, 3600000, 1000)?;
    let admin_secret = text_if_any(alloc, table, "admin_secret")?;
    let unauthorized_role = filled_text_if_any(alloc, table, "unauthorized_role")?;
    let tables = list_at(alloc, table, "tables")?;
    Ok(Document {
        version,
        batch_size,
        refetch_ms,
        admin_secret,
        unauthorized_role,
        tables,
    })
}

/// The metadata document that a table of TOML is, with the defaults of the keys that it leaves out. `Form` where a key
/// is unknown or missing, or a value is of another type or out of its range; `NoMemory` where memory is refused.
pub fn read_document(alloc: Global, table: &Table) -> Result<Document, FormFault>
    ensures ok { IfOk result (λ x. document_of (table_view table.now) ≡ Some x) }
    ensures bad { result ≡ Err FormFault.Form → document_of (table_view table.now) ≡ None }
{
    if !has_only(
        table,
        &[
            "version",
            "batch_size",
            "refetch_ms",
            "admin_secret",
            "unauthorized_role",
            "tables",
        ],
    ) {
        return Err(FormFault::Form);
    }
    read_keys(alloc, table)
}
