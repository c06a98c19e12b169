ghost use Rattle.std.specs.Prelude.{◌≡◌, ◌≤◌, ◌<◌, ◌++◌, ◌∷◌, [], length, None, IfOk, OnOk, IfSome, map, find};
ghost use Rattle.std.specs.Prelude.{unwrap_or};
ghost use Rattle.std.specs.List.{filter_map};
ghost use Rattle.std.specs.Option.{option_copied, option_to_list};
ghost use Rattle.std.specs.Str.{bytes_eq};
ghost use Rattle.role_model.specs.MetadataNames.{table_number, columns_of, columns_by};
ghost use Rattle.role_model.specs.MetadataMeaning.{numbers_of, table_def, link_def, link_defs, grant_of, role_def};
ghost use Rattle.role_model.specs.MetadataMeaning.{role_names, meaning_of};
ghost use Rattle.role_model.specs.MetadataFaults.{fault_of};
ghost use Rattle.metadata_bounds.specs.Names.{ShortFilters, most_names};
ghost use Rattle.metadata_read.specs.Few.{IsNarrow, AreNarrow, AreFew};
ghost use Rattle.metadata_read.specs.Held.{names_held, grant_held, role_held, kept_by};

use crate::faults::{json_in, table_by, table_place};
use crate::held::{Held, HeldList, HeldMap, held_by_role, held_in};
use crate::mentions::{role_names_of, session_names_of};
use data_model::{Catalog, Column, ColumnDefList, ColumnList, TableDef, TableDefList};
use filter_read::{number_of_column, read_filter};
use name_set::NameSet;
use role_model::{
    Document, Grant, GrantList, LinkDef, LinkEntry, LinkList, LinkListList, Metadata,
    PermissionEntry, RoleDef, RoleList, TableEntry,
};
use scalar_val::{NoMemory, Str};
use std::alloc::Global;

fn copy_columns(alloc: Global, columns: &[Column]) -> Result<ColumnDefList, NoMemory>
    ensures { IfOk result (λ copy. copy ≡ columns.now) }
{
    let mut copy = ColumnDefList::new(alloc);
    for column in columns {
        let column = Column {
            name: Str::of(alloc, column.name.as_str())?,
            kind: column.kind,
            nullable: column.nullable,
        };
        copy.push(column).map_err(|_| NoMemory)?;
    }
    Ok(copy)
}

fn numbers(alloc: Global, columns: &[Column], names: &[Str]) -> Result<ColumnList, NoMemory>
    requires narrow { length columns.now ≤ 64 }
    ensures { IfOk result (λ ns. ns ≡ numbers_of columns.now names.now) }
{
    let mut found = ColumnList::new(alloc);
    for name in names {
        let number = number_of_column(columns, name.as_str());
        found.push(number).map_err(|_| NoMemory)?;
    }
    Ok(found)
}

fn numbers_in(
    alloc: Global,
    table: Option<&TableEntry>,
    names: &[Str],
) -> Result<ColumnList, NoMemory>
    requires narrow { IfSome table (λ t. IsNarrow t.now) }
    ensures { IfOk result (λ ns. ns ≡ numbers_of (columns_by (option_copied table.entry)) names.now) }
{
    match table {
        Some(table) => numbers(alloc, table.columns.as_slice(), names),
        None => numbers(alloc, &[], names),
    }
}

fn table_of(alloc: Global, table: &TableEntry) -> Result<TableDef, NoMemory>
    requires narrow { IsNarrow table.now }
    ensures { IfOk result (λ t. t ≡ table_def table.now) }
{
    let name = Str::of(alloc, table.name.as_str())?;
    let columns = copy_columns(alloc, table.columns.as_slice())?;
    let key = numbers(alloc, table.columns.as_slice(), table.key.as_slice())?;
    let unique = numbers(alloc, table.columns.as_slice(), table.unique.as_slice())?;
    Ok(TableDef {
        name,
        columns,
        key,
        unique,
        max_rows: table.max_rows,
    })
}

fn tables_of(alloc: Global, tables: &[TableEntry]) -> Result<TableDefList, NoMemory>
    requires narrow { AreNarrow tables.now }
    ensures { IfOk result (λ ts. ts ≡ map table_def tables.now) }
{
    let mut found = TableDefList::new(alloc);
    for table in tables {
        let table = table_of(alloc, table)?;
        found.push(table).map_err(|_| NoMemory)?;
    }
    Ok(found)
}

/// The number of the table that a relationship leads to.
fn target(tables: &[TableEntry], link: &LinkEntry) -> u32
    requires few { AreFew tables.now }
    ensures { result ≡ unwrap_or (table_number tables.now link.now.table) 0 }
{
    match table_place(tables, link.table.as_str()) {
        Some(at) => at as u32,
        None => 0,
    }
}

#[tactic(auto, using(crate::proofs::Few::found_narrow))]
fn target_table<'a>(tables: &'a [TableEntry], link: &LinkEntry) -> Option<&'a TableEntry>
    requires narrow { AreNarrow tables.now }
    ensures value { option_copied result ≡ find (λ t. bytes_eq link.now.table t.name) tables.now }
    ensures narrow { IfSome result (λ t. IsNarrow t.now) }
{
    table_by(tables, link.table.as_str())
}

/// The columns there.
fn target_columns(
    alloc: Global,
    tables: &[TableEntry],
    link: &LinkEntry,
) -> Result<ColumnList, NoMemory>
    requires narrow { AreNarrow tables.now }
    ensures { IfOk result (λ ns. ns ≡ numbers_of (columns_of tables.now link.now.table) link.now.to) }
{
    numbers_in(alloc, target_table(tables, link), link.to.as_slice())
}

fn link_of(
    alloc: Global,
    tables: &[TableEntry],
    table: &TableEntry,
    many: bool,
    link: &LinkEntry,
) -> Result<LinkDef, NoMemory>
    requires few { AreFew tables.now }
    requires narrow { IsNarrow table.now }
    ensures { IfOk result (λ l. l ≡ link_def tables.now table.now many link.now) }
{
    let name = Str::of(alloc, link.name.as_str())?;
    let target = target(tables, link);
    let from = numbers(alloc, table.columns.as_slice(), link.from.as_slice())?;
    let to = target_columns(alloc, tables, link)?;
    Ok(LinkDef {
        name,
        many,
        table: target,
        from,
        to,
    })
}

fn push_link(
    alloc: Global,
    found: &mut LinkList,
    tables: &[TableEntry],
    table: &TableEntry,
    many: bool,
    link: &LinkEntry,
) -> Result<(), NoMemory>
    requires few { AreFew tables.now }
    requires narrow { IsNarrow table.now }
    ensures { OnOk result (found.new ≡ found.old ++ link_def tables.now table.now many link.now ∷ []) }
{
    let link = link_of(alloc, tables, table, many, link)?;
    match found.push(link) {
        Ok(()) => Ok(()),
        Err(_back) => Err(NoMemory),
    }
}

fn push_links(
    alloc: Global,
    found: &mut LinkList,
    tables: &[TableEntry],
    table: &TableEntry,
    many: bool,
    links: &[LinkEntry],
) -> Result<(), NoMemory>
    requires few { AreFew tables.now }
    requires narrow { IsNarrow table.now }
    ensures { OnOk result (found.new ≡ found.old ++ map (link_def tables.now table.now many) links.now) }
{
    for link in links {
        push_link(alloc, found, tables, table, many, link)?;
    }
    Ok(())
}

fn links_of(alloc: Global, tables: &[TableEntry], table: &TableEntry) -> Result<LinkList, NoMemory>
    requires few { AreFew tables.now }
    requires narrow { IsNarrow table.now }
    ensures { IfOk result (λ ls. ls ≡ link_defs tables.now table.now) }
{
    let mut found = LinkList::new(alloc);
    push_links(
        alloc,
        &mut found,
        tables,
        table,
        false,
        table.object.as_slice(),
    )?;
    push_links(
        alloc,
        &mut found,
        tables,
        table,
        true,
        table.array.as_slice(),
    )?;
    Ok(found)
}

fn links_of_all(alloc: Global, tables: &[TableEntry]) -> Result<LinkListList, NoMemory>
    requires few { AreFew tables.now }
    ensures { IfOk result (λ ls. ls ≡ map (link_defs tables.now) tables.now) }
{
    let mut found = LinkListList::new(alloc);
    for table in tables {
        let links = links_of(alloc, tables, table)?;
        found.push(links).map_err(|_| NoMemory)?;
    }
    Ok(found)
}

pub fn grant_by(
    alloc: Global,
    names: &NameSet,
    at: usize,
    table: &TableEntry,
    permission: &PermissionEntry,
) -> Result<Option<Grant>, NoMemory>
    requires place { at < 256 }
    requires narrow { IsNarrow table.now }
    requires slots { length names.now ≤ 4294967296 }
    ensures { IfOk result (λ g. g ≡ grant_of names.now at table.now permission.now) }
{
    let columns = numbers(
        alloc,
        table.columns.as_slice(),
        permission.columns.as_slice(),
    )?;
    let value = json_in(alloc, permission.filter.as_str())?;
    match read_filter(alloc, table.columns.as_slice(), names, &value)? {
        Some(filter) => Ok(Some(Grant {
            table: at as u32,
            columns,
            filter,
            limit: permission.limit,
        })),
        None => Ok(None),
    }
}

fn grant_in(alloc: Global, names: &NameSet, held: &Held<'_>) -> Result<Option<Grant>, NoMemory>
    requires slots { length names.now ≤ 4294967296 }
    ensures { IfOk result (λ g. g ≡ grant_held names.now held.now) }
{
    grant_by(alloc, names, held.at, held.table, held.permission)
}

pub fn push_grant(grants: &mut GrantList, grant: Option<Grant>) -> Result<(), NoMemory>
    ensures { OnOk result (grants.new ≡ grants.old ++ option_to_list grant) }
{
    match grant {
        Some(grant) => match grants.push(grant) {
            Ok(()) => Ok(()),
            Err(_back) => Err(NoMemory),
        },
        None => Ok(()),
    }
}

fn grants_of(alloc: Global, own: &[Held<'_>], names: &NameSet) -> Result<GrantList, NoMemory>
    requires slots { length names.now ≤ 4294967296 }
    ensures { IfOk result (λ gs. gs ≡ filter_map (grant_held names.now) own.now) }
{
    let mut grants = GrantList::new(alloc);
    for held in own {
        let grant = grant_in(alloc, names, held)?;
        push_grant(&mut grants, grant)?;
    }
    Ok(grants)
}

fn role_of(alloc: Global, own: &[Held<'_>], role: &str) -> Result<RoleDef, NoMemory>
    requires few { length (names_held own.now) ≤ most_names }
    ensures { IfOk result (λ r. r ≡ role_held role.now own.now) }
{
    let name = Str::of(alloc, role)?;
    let session_names = session_names_of(alloc, own)?;
    let grants = grants_of(alloc, own, &session_names)?;
    Ok(RoleDef {
        name,
        session_names: session_names.into_names(),
        grants,
    })
}

fn role_by(alloc: Global, own: Option<&HeldList<'_>>, role: &str) -> Result<RoleDef, NoMemory>
    requires few { length (names_held (unwrap_or (option_copied own) [])) ≤ most_names }
    ensures { IfOk result (λ r. r ≡ role_held role.now (unwrap_or (option_copied own.entry) [])) }
{
    match own {
        Some(own) => role_of(alloc, own.as_slice(), role),
        None => role_of(alloc, &[], role),
    }
}

fn push_role(
    alloc: Global,
    roles: &mut RoleList,
    kept: &HeldMap<'_>,
    role: &str,
) -> Result<(), NoMemory>
    requires few { length (names_held (kept_by kept.now role.now)) ≤ most_names }
    ensures { OnOk result (roles.new ≡ roles.old ++ role_held role.now (kept_by kept.now role.now) ∷ []) }
{
    let role = role_by(alloc, held_in(kept, role), role)?;
    match roles.push(role) {
        Ok(()) => Ok(()),
        Err(_back) => Err(NoMemory),
    }
}

#[tactic(auto, using(crate::proofs::Kept::kept_names_few))]
pub fn roles_of(alloc: Global, tables: &[TableEntry], names: &[Str]) -> Result<RoleList, NoMemory>
    requires few { AreFew tables.now }
    requires short { ShortFilters tables.now }
    ensures { IfOk result (λ rs. rs ≡ map (role_def tables.now) names.now) }
{
    let kept = held_by_role(alloc, tables)?;
    let mut roles = RoleList::new(alloc);
    for name in names {
        push_role(alloc, &mut roles, &kept, name.as_str())?;
    }
    Ok(roles)
}

/// What a document says, and the names of its roles, in the order of the roles.
#[derive(Drop)]
pub struct Meaning {
    pub metadata: Metadata,
    pub role_names: NameSet,
}

/// What a document says, where nothing is wrong with it and no filter is longer than 1,048,576 bytes. `NoMemory` where
/// memory is refused.
#[tactic(auto, using(crate::proofs::Few::few_where_faultless))]
pub fn read_meaning(alloc: Global, document: Document) -> Result<Meaning, NoMemory>
    requires faultless { fault_of document ≡ None }
    requires short { ShortFilters document.tables }
    ensures value { IfOk result (λ m. m.metadata ≡ meaning_of document) }
    ensures names { IfOk result (λ m. m.role_names ≡ map (λ r. r.name) m.metadata.roles) }
{
    let tables = tables_of(alloc, document.tables.as_slice())?;
    let links = links_of_all(alloc, document.tables.as_slice())?;
    let names = role_names_of(alloc, document.tables.as_slice())?;
    let roles = roles_of(alloc, document.tables.as_slice(), names.names())?;
    let metadata = Metadata {
        catalog: Catalog { tables },
        links,
        roles,
        batch_size: document.batch_size,
        refetch_ms: document.refetch_ms,
        secret: document.admin_secret,
        unauthorized_role: document.unauthorized_role,
    };
    Ok(Meaning {
        metadata,
        role_names: names,
    })
}
