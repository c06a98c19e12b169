//! What a role is, read table by table as the definition says it. The tests compare it with what the crate reads.

ghost use Rattle.std.specs.Prelude.{◌≡◌, ◌≤◌, ◌<◌, length, IfOk, OnOk};
ghost use Rattle.std.specs.List.{fold, filter_map, enumerate_from};
ghost use Rattle.std.specs.Option.{option_copied};
ghost use Rattle.role_model.specs.JsonFilters.{with_text};
ghost use Rattle.role_model.specs.MetadataMeaning.{mentions_by, permission_for, session_names, grant_for, role_def};
ghost use Rattle.metadata_bounds.specs.Names.{ShortFilters};
ghost use Rattle.metadata_read.specs.Few.{IsNarrow, AreFew};

use crate::meaning::{grant_by, push_grant};
use crate::mentions::push_mentions_by;
use name_set::NameSet;
use role_model::{Grant, GrantList, PermissionEntry, RoleDef, TableEntry};
use scalar_val::{NoMemory, Str};
use std::alloc::Global;

/// The permission of a table for a role.
fn permission_of<'a>(table: &'a TableEntry, role: &str) -> Option<&'a PermissionEntry>
    ensures { option_copied result ≡ permission_for role.now table.now }
{
    for permission in table.select.as_slice() {
        if role == permission.role.as_str() {
            return Some(permission);
        }
    }
    None
}

fn push_mentions_if_any(
    alloc: Global,
    permission: Option<&PermissionEntry>,
    names: &mut NameSet,
) -> Result<(), NoMemory>
    ensures { OnOk result (names.new ≡ fold with_text names.old (mentions_by (option_copied permission.entry))) }
{
    match permission {
        Some(permission) => push_mentions_by(alloc, permission, names),
        None => Ok(()),
    }
}

/// The session variables that a role's filters name, each once.
fn session_names_of(alloc: Global, tables: &[TableEntry], role: &str) -> Result<NameSet, NoMemory>
    ensures { IfOk result (λ names. names ≡ session_names tables.now role.now) }
{
    let mut names = NameSet::new(alloc);
    for table in tables {
        push_mentions_if_any(alloc, permission_of(table, role), &mut names)?;
    }
    Ok(names)
}

fn grant_in(
    alloc: Global,
    role: &str,
    names: &NameSet,
    at: usize,
    table: &TableEntry,
) -> Result<Option<Grant>, NoMemory>
    requires place { at < 256 }
    requires narrow { IsNarrow table.now }
    requires slots { length names.now ≤ 4294967296 }
    ensures { IfOk result (λ g. g ≡ grant_for role.now names.now (at, table.now)) }
{
    match permission_of(table, role) {
        Some(permission) => grant_by(alloc, names, at, table, permission),
        None => Ok(None),
    }
}

fn grants_of(
    alloc: Global,
    tables: &[TableEntry],
    role: &str,
    names: &NameSet,
) -> Result<GrantList, NoMemory>
    requires few { AreFew tables.now }
    requires slots { length names.now ≤ 4294967296 }
    ensures { IfOk result (λ gs. gs ≡ filter_map (grant_for role.now names.now) (enumerate_from 0 tables.now)) }
{
    let mut grants = GrantList::new(alloc);
    for at in 0..tables.len() {
        let grant = grant_in(alloc, role, names, at, &tables[at])?;
        push_grant(&mut grants, grant)?;
    }
    Ok(grants)
}

/// A role, table by table.
#[tactic(auto, using(crate::proofs::Few::names_few))]
pub fn plain_role_of(alloc: Global, tables: &[TableEntry], role: &str) -> Result<RoleDef, NoMemory>
    requires few { AreFew tables.now }
    requires short { ShortFilters tables.now }
    ensures { IfOk result (λ r. r ≡ role_def tables.now role.now) }
{
    let name = Str::of(alloc, role)?;
    let session_names = session_names_of(alloc, tables, role)?;
    let grants = grants_of(alloc, tables, role, &session_names)?;
    Ok(RoleDef {
        name,
        session_names: session_names.into_names(),
        grants,
    })
}
