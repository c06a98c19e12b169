//! The relationships of tables by the places of their names.

ghost use Rattle.std.specs.Prelude.{◌≡◌, IfOk, map, option_and_then, slice_get};
ghost use Rattle.std.specs.Option.{option_copied};
ghost use Rattle.name_set.specs.Names.{first_at};
ghost use Rattle.role_model.specs.Roles.{links_at};
ghost use Rattle.role_schema.specs.LinkNames.{names_of_links};

use name_set::NameSet;
use role_model::{LinkDef, LinkList};
use scalar_val::{List, NoMemory, Str};
use std::alloc::Global;

fn names_of(alloc: Global, links: &[LinkDef]) -> Result<NameSet, NoMemory>
    ensures { IfOk result (λ names. names ≡ names_of_links links.now) }
{
    let mut names = NameSet::new(alloc);
    for link in links {
        names.insert(alloc, Str::of(alloc, link.name.as_str())?)?;
    }
    Ok(names)
}

/// The names of the relationships of each table.
pub fn names_of_all(alloc: Global, tables: &[LinkList]) -> Result<List<NameSet>, NoMemory>
    ensures { IfOk result (λ names. names ≡ map names_of_links tables.now) }
{
    let mut names = List::new(alloc);
    for links in tables {
        names.add(names_of(alloc, links.as_slice())?)?;
    }
    Ok(names)
}

/// The place of a name among the names of a table's relationships.
pub fn place_at(names: Option<&NameSet>, name: &str) -> Option<usize>
    ensures { result ≡ option_and_then (λ ns. first_at ns name.now) (option_copied names.entry) }
{
    match names {
        Some(names) => names.place(name),
        None => None,
    }
}

/// The relationship at a place.
pub fn link_at(links: Option<&LinkList>, place: Option<usize>) -> Option<&LinkDef>
    ensures { option_copied result ≡ option_and_then (slice_get (links_at (option_copied links.entry))) place }
{
    match links {
        Some(links) => link_in(links.as_slice(), place),
        None => None,
    }
}

fn link_in(links: &[LinkDef], place: Option<usize>) -> Option<&LinkDef>
    ensures { option_copied result ≡ option_and_then (slice_get links.now) place }
{
    match place {
        Some(at) => links.get(at),
        None => None,
    }
}
