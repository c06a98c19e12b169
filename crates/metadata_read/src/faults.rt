ghost use Rattle.std.specs.Prelude.{◌≡◌, ◌≤◌, ◌<◌, ◌++◌, ◌∷◌, ◌||◌, ◌&&◌, [], List, Some, None, IfOk, OnOk, IfSome};
ghost use Rattle.std.specs.Prelude.{false, not, is_none, nat_eq, nat_lt, length, option_map, map, position, find};
ghost use Rattle.std.specs.Prelude.{codes};
ghost use Rattle.std.specs.Cmp.Lexicographic.{pointwise};
ghost use Rattle.std.specs.List.{list_any, list_all, starts_with, flat_map};
ghost use Rattle.std.specs.Option.{option_copied};
ghost use Rattle.std.specs.Str.{bytes_eq};
ghost use Rattle.serde_json.specs.View.{view as json_view};
ghost use Rattle.role_model.specs.JsonFilters.{filter_of};
ghost use Rattle.scalar_val.specs.Values.{same_kind};
ghost use Rattle.metadata_read.specs.Few.{IsNarrow, AreNarrow};
ghost use Rattle.role_model.specs.MetadataNames.{are_one_kind, begins_name, goes_on_name, is_graphql_name, is_own_name, has_twice};
ghost use Rattle.role_model.specs.MetadataNames.{links_of, field_names, root_names, table_number, columns_by};
ghost use Rattle.role_model.specs.MetadataNames.{columns_of, has_column, kind_in, json_of};
ghost use Rattle.role_model.specs.MetadataFaults.{wrong_version, too_many, bad_name, duplicate, no_table, no_column};
ghost use Rattle.role_model.specs.MetadataFaults.{bad_kind, bad_role, bad_filter, repeats_a_name, lacks_a_column};
ghost use Rattle.role_model.specs.MetadataFaults.{lacks_a_filter, link_lacks_a_column, table_lacks_a_column};
ghost use Rattle.role_model.specs.MetadataFaults.{links_other_kinds, has_a_bad_kind};

use data_model::Column;
use filter_read::read_filter;
use metadata_form::{FormFault, read_json};
use name_set::NameSet;
use plan_model::{Filter, StrList};
use role_model::{Document, LinkEntry, PermissionEntry, TableEntry};
use scalar_val::{Kind, NoMemory, Str, same_kind};
use serde_json::Value;
use std::alloc::Global;

pub fn has_wrong_version(document: &Document) -> bool
    ensures { result ≡ wrong_version document.now }
{
    document.version != 1
}

fn has_a_wide_table(tables: &[TableEntry]) -> bool
    ensures { result ≡ list_any (λ t. nat_lt 64 (length t.columns)) tables.now }
{
    for table in tables {
        if table.columns.len() > 64 {
            return true;
        }
    }
    false
}

pub fn has_too_many(document: &Document) -> bool
    ensures { result ≡ too_many document.now }
{
    document.tables.len() > 256 || has_a_wide_table(document.tables.as_slice())
}

fn is_name_start(byte: u8) -> bool
    ensures { result ≡ begins_name byte }
{
    byte.is_ascii_alphabetic() || byte == b'_'
}

fn is_name_part(byte: u8) -> bool
    ensures { result ≡ goes_on_name byte }
{
    is_name_start(byte) || byte.is_ascii_digit()
}

fn are_name_parts(bytes: &[u8]) -> bool
    ensures { result ≡ list_all goes_on_name bytes.now }
{
    for byte in bytes {
        if !is_name_part(*byte) {
            return false;
        }
    }
    true
}

fn is_a_graphql_name(bytes: &[u8]) -> bool
    ensures { result ≡ is_graphql_name bytes.now }
{
    match bytes {
        [first, rest @ ..] => is_name_start(*first) && are_name_parts(rest),
        [] => false,
    }
}

fn may_be_a_name(name: &str) -> bool
    ensures { result ≡ is_own_name name.now }
{
    is_a_graphql_name(name.as_bytes()) && !name.as_bytes().starts_with(b"__")
}

fn has_a_bad_column_name(columns: &[Column]) -> bool
    ensures { result ≡ list_any (λ name. not (is_own_name name)) (map (λ c. c.name) columns.now) }
{
    for column in columns {
        if !may_be_a_name(column.name.as_str()) {
            return true;
        }
    }
    false
}

fn has_a_bad_link_name(links: &[LinkEntry]) -> bool
    ensures { result ≡ list_any (λ name. not (is_own_name name)) (map (λ l. l.name) links.now) }
{
    for link in links {
        if !may_be_a_name(link.name.as_str()) {
            return true;
        }
    }
    false
}

#[tactic(auto, using(crate::proofs::Steps::names_apart))]
fn has_a_bad_field_name(table: &TableEntry) -> bool
    ensures { result ≡ list_any (λ name. not (is_own_name name)) (field_names table.now) }
{
    has_a_bad_column_name(table.columns.as_slice())
        || (has_a_bad_link_name(table.object.as_slice())
            || has_a_bad_link_name(table.array.as_slice()))
}

pub fn has_bad_name(document: &Document) -> bool
    ensures { result ≡ bad_name document.now }
{
    for table in document.tables.as_slice() {
        if !may_be_a_name(table.name.as_str()) || has_a_bad_field_name(table) {
            return true;
        }
    }
    false
}

fn stands_in(name: &str, names: &[Str]) -> bool
    ensures { result ≡ list_any (bytes_eq name.now) names.now }
{
    for known in names {
        if name == known.as_str() {
            return true;
        }
    }
    false
}

fn refs_of<'a>(alloc: Global, names: &'a [Str]) -> Result<Vec<&'a Str>, NoMemory>
    ensures { IfOk result (λ refs. map (λ n. n.now) refs.items ≡ names.now) }
{
    let mut refs = Vec::new(alloc);
    for name in names {
        refs.push(name)?;
    }
    Ok(refs)
}

#[tactic(auto, using(crate::proofs::Twice::same_twice))]
fn repeats(alloc: Global, names: &[Str]) -> Result<bool, NoMemory>
    ensures { IfOk result (λ b. b ≡ has_twice names.now) }
{
    let refs = refs_of(alloc, names)?;
    name_set::repeats(alloc, refs.as_slice())
}

fn push_copy(alloc: Global, names: &mut StrList, name: &str) -> Result<(), NoMemory>
    ensures { OnOk result (names.new ≡ names.old ++ name.now ∷ []) }
{
    let name = Str::of(alloc, name)?;
    match names.push(name) {
        Ok(()) => Ok(()),
        Err(_back) => Err(NoMemory),
    }
}

fn push_column_names(alloc: Global, names: &mut StrList, columns: &[Column]) -> Result<(), NoMemory>
    ensures { OnOk result (names.new ≡ names.old ++ map (λ c. c.name) columns.now) }
{
    for column in columns {
        push_copy(alloc, names, column.name.as_str())?;
    }
    Ok(())
}

fn push_link_names(alloc: Global, names: &mut StrList, links: &[LinkEntry]) -> Result<(), NoMemory>
    ensures { OnOk result (names.new ≡ names.old ++ map (λ l. l.name) links.now) }
{
    for link in links {
        push_copy(alloc, names, link.name.as_str())?;
    }
    Ok(())
}

#[tactic(auto, using(crate::proofs::Steps::names_joined))]
fn names_of_fields(alloc: Global, table: &TableEntry) -> Result<StrList, NoMemory>
    ensures { IfOk result (λ names. names ≡ field_names table.now) }
{
    let mut names = StrList::new(alloc);
    push_column_names(alloc, &mut names, table.columns.as_slice())?;
    push_link_names(alloc, &mut names, table.object.as_slice())?;
    push_link_names(alloc, &mut names, table.array.as_slice())?;
    Ok(names)
}

fn names_of_roles(alloc: Global, select: &[PermissionEntry]) -> Result<StrList, NoMemory>
    ensures { IfOk result (λ names. names ≡ map (λ p. p.role) select.now) }
{
    let mut names = StrList::new(alloc);
    for permission in select {
        push_copy(alloc, &mut names, permission.role.as_str())?;
    }
    Ok(names)
}

fn has_a_repeated_column(alloc: Global, select: &[PermissionEntry]) -> Result<bool, NoMemory>
    ensures { IfOk result (λ b. b ≡ list_any (λ p. has_twice p.columns) select.now) }
{
    for permission in select {
        if repeats(alloc, permission.columns.as_slice())? {
            return Ok(true);
        }
    }
    Ok(false)
}

fn repeats_in(alloc: Global, table: &TableEntry) -> Result<bool, NoMemory>
    ensures { IfOk result (λ b. b ≡ repeats_a_name table.now) }
{
    let fields = names_of_fields(alloc, table)?;
    if repeats(alloc, fields.as_slice())? {
        return Ok(true);
    }
    if repeats(alloc, table.key.as_slice())? {
        return Ok(true);
    }
    if repeats(alloc, table.unique.as_slice())? {
        return Ok(true);
    }
    if has_a_repeated_column(alloc, table.select.as_slice())? {
        return Ok(true);
    }
    let roles = names_of_roles(alloc, table.select.as_slice())?;
    repeats(alloc, roles.as_slice())
}

fn push_joined(alloc: Global, names: &mut StrList, name: &str, end: &str) -> Result<(), NoMemory>
    ensures { OnOk result (names.new ≡ names.old ++ (name.now ++ end.now) ∷ []) }
{
    let mut text = String::from_str(alloc, name)?;
    text.push_str(end)?;
    match names.push(Str::from_string(text)) {
        Ok(()) => Ok(()),
        Err(_back) => Err(NoMemory),
    }
}

fn push_root_names(alloc: Global, names: &mut StrList, name: &str) -> Result<(), NoMemory>
    ensures { OnOk result (names.new ≡ names.old ++ (name.now ∷ (name.now ++ codes "_by_pk") ∷ (name.now ++ codes "_stream") ∷ [])) }
{
    push_copy(alloc, names, name)?;
    push_joined(alloc, names, name, "_by_pk")?;
    push_joined(alloc, names, name, "_stream")
}

fn names_of_root_fields(alloc: Global, tables: &[TableEntry]) -> Result<StrList, NoMemory>
    ensures { IfOk result (λ names. names ≡ flat_map root_names tables.now) }
{
    let mut names = StrList::new(alloc);
    for table in tables {
        push_root_names(alloc, &mut names, table.name.as_str())?;
    }
    Ok(names)
}

fn has_a_table_that_repeats(alloc: Global, tables: &[TableEntry]) -> Result<bool, NoMemory>
    ensures { IfOk result (λ b. b ≡ list_any repeats_a_name tables.now) }
{
    for table in tables {
        if repeats_in(alloc, table)? {
            return Ok(true);
        }
    }
    Ok(false)
}

pub fn has_duplicate(alloc: Global, document: &Document) -> Result<bool, NoMemory>
    ensures { IfOk result (λ b. b ≡ duplicate document.now) }
{
    let names = names_of_root_fields(alloc, document.tables.as_slice())?;
    if repeats(alloc, names.as_slice())? {
        return Ok(true);
    }
    has_a_table_that_repeats(alloc, document.tables.as_slice())
}

/// The number of a table by its name.
pub fn table_place(tables: &[TableEntry], name: &str) -> Option<usize>
    ensures value { result ≡ table_number tables.now name.now }
    ensures bound { IfSome result (λ at. at < length tables.now) }
{
    tables.iter().position(|table| name == table.name.as_str())
}

fn names_no_table(tables: &[TableEntry], links: &[LinkEntry]) -> bool
    ensures { result ≡ list_any (λ l. is_none (table_number tables.now l.table)) links.now }
{
    for link in links {
        if table_place(tables, link.table.as_str()).is_none() {
            return true;
        }
    }
    false
}

#[tactic(auto, using(crate::proofs::Steps::links_apart))]
pub fn has_no_table(document: &Document) -> bool
    ensures { result ≡ no_table document.now }
{
    for table in document.tables.as_slice() {
        if names_no_table(document.tables.as_slice(), table.object.as_slice())
            || names_no_table(document.tables.as_slice(), table.array.as_slice())
        {
            return true;
        }
    }
    false
}

/// The table of a name.
pub fn table_by<'a>(tables: &'a [TableEntry], name: &str) -> Option<&'a TableEntry>
    ensures { option_copied result ≡ find (λ t. bytes_eq name.now t.name) tables.now }
{
    for table in tables {
        if name == table.name.as_str() {
            return Some(table);
        }
    }
    None
}

fn is_a_column(columns: &[Column], name: &str) -> bool
    ensures { result ≡ has_column columns.now name.now }
{
    for column in columns {
        if name == column.name.as_str() {
            return true;
        }
    }
    false
}

fn names_no_column(columns: &[Column], names: &[Str]) -> bool
    ensures { result ≡ lacks_a_column columns.now names.now }
{
    for name in names {
        if !is_a_column(columns, name.as_str()) {
            return true;
        }
    }
    false
}

fn names_no_column_of(table: Option<&TableEntry>, names: &[Str]) -> bool
    ensures { result ≡ lacks_a_column (columns_by (option_copied table.entry)) names.now }
{
    match table {
        Some(table) => names_no_column(table.columns.as_slice(), names),
        None => names_no_column(&[], names),
    }
}

fn link_names_no_column(tables: &[TableEntry], table: &TableEntry, link: &LinkEntry) -> bool
    ensures { result ≡ link_lacks_a_column tables.now table.now link.now }
{
    names_no_column(table.columns.as_slice(), link.from.as_slice())
        || names_no_column_of(table_by(tables, link.table.as_str()), link.to.as_slice())
}

fn links_name_no_column(tables: &[TableEntry], table: &TableEntry, links: &[LinkEntry]) -> bool
    ensures { result ≡ list_any (link_lacks_a_column tables.now table.now) links.now }
{
    for link in links {
        if link_names_no_column(tables, table, link) {
            return true;
        }
    }
    false
}

fn permissions_name_no_column(columns: &[Column], select: &[PermissionEntry]) -> bool
    ensures { result ≡ list_any (λ p. lacks_a_column columns.now p.columns) select.now }
{
    for permission in select {
        if names_no_column(columns, permission.columns.as_slice()) {
            return true;
        }
    }
    false
}

#[tactic(auto, using(crate::proofs::Steps::links_apart))]
fn table_names_no_column(tables: &[TableEntry], table: &TableEntry) -> bool
    ensures { result ≡ table_lacks_a_column tables.now table.now }
{
    let columns = table.columns.as_slice();
    let own = names_no_column(columns, table.key.as_slice())
        || names_no_column(columns, table.unique.as_slice());
    let linked = links_name_no_column(tables, table, table.object.as_slice())
        || links_name_no_column(tables, table, table.array.as_slice());
    own || linked || permissions_name_no_column(columns, table.select.as_slice())
}

pub fn has_no_column(document: &Document) -> bool
    ensures { result ≡ no_column document.now }
{
    for table in document.tables.as_slice() {
        if table_names_no_column(document.tables.as_slice(), table) {
            return true;
        }
    }
    false
}

fn are_one_kind(a: Option<Kind>, b: Option<Kind>) -> bool
    ensures { result ≡ are_one_kind a b }
{
    match (a, b) {
        (Some(a), Some(b)) => same_kind(a, b),
        _ => false,
    }
}

fn kind_by(columns: &[Column], name: &str) -> Option<Kind>
    ensures { result ≡ kind_in columns.now name.now }
{
    for column in columns {
        if name == column.name.as_str() {
            return Some(column.kind);
        }
    }
    None
}

fn kind_of(table: Option<&TableEntry>, name: &str) -> Option<Kind>
    ensures { result ≡ kind_in (columns_by (option_copied table.entry)) name.now }
{
    match table {
        Some(table) => kind_by(table.columns.as_slice(), name),
        None => None,
    }
}

fn kinds_agree(columns: &[Column], from: &[Str], target: Option<&TableEntry>, to: &[Str]) -> bool
    ensures { result ≡ pointwise are_one_kind (map (kind_in columns.now) from.now) (map (kind_in (columns_by (option_copied target.entry))) to.now) }
{
    if from.len() != to.len() {
        return false;
    }
    for i in 0..from.len() {
        if !are_one_kind(
            kind_by(columns, from[i].as_str()),
            kind_of(target, to[i].as_str()),
        ) {
            return false;
        }
    }
    true
}

#[tactic(auto, unfolding(role_model::specs::MetadataFaults::links_other_kinds))]
fn link_differs_in_kind(tables: &[TableEntry], table: &TableEntry, link: &LinkEntry) -> bool
    ensures { result ≡ links_other_kinds tables.now table.now link.now }
{
    !kinds_agree(
        table.columns.as_slice(),
        link.from.as_slice(),
        table_by(tables, link.table.as_str()),
        link.to.as_slice(),
    )
}

fn links_differ_in_kind(tables: &[TableEntry], table: &TableEntry, links: &[LinkEntry]) -> bool
    ensures { result ≡ list_any (links_other_kinds tables.now table.now) links.now }
{
    for link in links {
        if link_differs_in_kind(tables, table, link) {
            return true;
        }
    }
    false
}

fn has_a_nullable_key(columns: &[Column], key: &[Str]) -> bool
    ensures { result ≡ list_any (λ c. c.nullable && list_any (bytes_eq c.name) key.now) columns.now }
{
    for column in columns {
        if column.nullable && stands_in(column.name.as_str(), key) {
            return true;
        }
    }
    false
}

#[tactic(auto, using(crate::proofs::Steps::links_apart))]
fn table_has_a_bad_kind(tables: &[TableEntry], table: &TableEntry) -> bool
    ensures { result ≡ has_a_bad_kind tables.now table.now }
{
    has_a_nullable_key(table.columns.as_slice(), table.key.as_slice())
        || (links_differ_in_kind(tables, table, table.object.as_slice())
            || links_differ_in_kind(tables, table, table.array.as_slice()))
}

pub fn has_bad_kind(document: &Document) -> bool
    ensures { result ≡ bad_kind document.now }
{
    for table in document.tables.as_slice() {
        if table_has_a_bad_kind(document.tables.as_slice(), table) {
            return true;
        }
    }
    false
}

fn names_admin(select: &[PermissionEntry]) -> bool
    ensures { result ≡ list_any (λ p. bytes_eq p.role (codes "admin")) select.now }
{
    for permission in select {
        if permission.role.as_str() == "admin" {
            return true;
        }
    }
    false
}

pub fn has_bad_role(document: &Document) -> bool
    ensures { result ≡ bad_role document.now }
{
    for table in document.tables.as_slice() {
        if names_admin(table.select.as_slice()) {
            return true;
        }
    }
    false
}

/// The value of a JSON text, and null where it is none.
pub fn json_in(alloc: Global, text: &str) -> Result<Value, NoMemory>
    ensures { IfOk result (λ v. json_view v ≡ json_of text.now) }
{
    match read_json(alloc, text) {
        Ok(value) => Ok(value),
        Err(FormFault::Form) => Ok(Value::Null),
        Err(FormFault::NoMemory) => Err(NoMemory),
    }
}

/// A filter with no session variables' slots.
fn read_bare_filter(
    alloc: Global,
    columns: &[Column],
    value: &Value,
) -> Result<Option<Filter>, NoMemory>
    requires narrow { length columns.now ≤ 64 }
    ensures { IfOk result (λ o. o ≡ filter_of columns.now [] (json_view value.now)) }
{
    let names = NameSet::new(alloc);
    read_filter(alloc, columns, &names, value)
}

fn is_no_filter(alloc: Global, columns: &[Column], text: &str) -> Result<bool, NoMemory>
    requires narrow { length columns.now ≤ 64 }
    ensures { IfOk result (λ b. b ≡ is_none (filter_of columns.now [] (json_of text.now))) }
{
    let value = json_in(alloc, text)?;
    let filter = read_bare_filter(alloc, columns, &value)?;
    Ok(filter.is_none())
}

fn permissions_have_no_filter(
    alloc: Global,
    columns: &[Column],
    select: &[PermissionEntry],
) -> Result<bool, NoMemory>
    requires narrow { length columns.now ≤ 64 }
    ensures { IfOk result (λ b. b ≡ list_any (λ p. is_none (filter_of columns.now [] (json_of p.filter))) select.now) }
{
    for permission in select {
        if is_no_filter(alloc, columns, permission.filter.as_str())? {
            return Ok(true);
        }
    }
    Ok(false)
}

fn table_lacks_filter(alloc: Global, table: &TableEntry) -> Result<bool, NoMemory>
    requires narrow { IsNarrow table.now }
    ensures { IfOk result (λ b. b ≡ lacks_a_filter table.now) }
{
    let columns = table.columns.as_slice();
    let lacks = permissions_have_no_filter(alloc, columns, table.select.as_slice())?;
    Ok(lacks)
}

fn some_table_lacks_filter(alloc: Global, tables: &[TableEntry]) -> Result<bool, NoMemory>
    requires narrow { AreNarrow tables.now }
    ensures { IfOk result (λ b. b ≡ list_any lacks_a_filter tables.now) }
{
    for table in tables {
        if table_lacks_filter(alloc, table)? {
            return Ok(true);
        }
    }
    Ok(false)
}

#[tactic(auto, using(crate::proofs::Few::few))]
pub fn has_bad_filter(alloc: Global, document: &Document) -> Result<bool, NoMemory>
    requires few { too_many document.now ≡ false }
    ensures { IfOk result (λ b. b ≡ bad_filter document.now) }
{
    some_table_lacks_filter(alloc, document.tables.as_slice())
}
