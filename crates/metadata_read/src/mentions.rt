ghost use Rattle.std.specs.Prelude.{◌≡◌, ◌∷◌, [], IfOk, OnOk, map};
ghost use Rattle.std.specs.List.{fold, flat_map};
ghost use Rattle.role_model.specs.JsonFilters.{with_text, distinct, mentions};
ghost use Rattle.role_model.specs.MetadataNames.{json_of};
ghost use Rattle.role_model.specs.MetadataMeaning.{role_names};
ghost use Rattle.metadata_read.specs.Held.{names_held};

use crate::faults::json_in;
use crate::held::Held;
use filter_read::push_mentions;
use name_set::NameSet;
use role_model::{PermissionEntry, TableEntry};
use scalar_val::{NoMemory, Str};
use std::alloc::Global;

pub fn push_mentions_by(
    alloc: Global,
    permission: &PermissionEntry,
    names: &mut NameSet,
) -> Result<(), NoMemory>
    ensures { OnOk result (names.new ≡ fold with_text names.old (mentions (json_of permission.now.filter))) }
{
    let value = json_in(alloc, permission.filter.as_str())?;
    push_mentions(alloc, &value, names)
}

/// The session variables that the filters of a role's permissions name, each once.
pub fn session_names_of(alloc: Global, own: &[Held<'_>]) -> Result<NameSet, NoMemory>
    ensures { IfOk result (λ names. names ≡ names_held own.now) }
{
    let mut names = NameSet::new(alloc);
    for held in own {
        push_mentions_by(alloc, held.permission, &mut names)?;
    }
    Ok(names)
}

fn push_roles(
    alloc: Global,
    select: &[PermissionEntry],
    names: &mut NameSet,
) -> Result<(), NoMemory>
    ensures { OnOk result (names.new ≡ fold with_text names.old (map (λ p. p.role) select.now)) }
{
    for permission in select {
        names.insert(alloc, Str::of(alloc, permission.role.as_str())?)?;
    }
    Ok(())
}

/// The roles that permissions name, each once.
pub fn role_names_of(alloc: Global, tables: &[TableEntry]) -> Result<NameSet, NoMemory>
    ensures { IfOk result (λ names. names ≡ role_names tables.now) }
{
    let mut names = NameSet::new(alloc);
    for table in tables {
        push_roles(alloc, table.select.as_slice(), &mut names)?;
    }
    Ok(names)
}
