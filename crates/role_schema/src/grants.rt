//! The permissions of roles by the tables that they are for.

ghost use Rattle.std.specs.Prelude.{◌≡◌, IfOk, map, is_some, option_and_then, List, ℕ};
ghost use Rattle.std.specs.Option.{option_copied};
ghost use Rattle.role_schema.specs.GrantNumbers.{tables_of, columns_of, index_of, index_has};
ghost use Rattle.role_schema.specs.Numbers.{first_number};

use crate::numbers::NumberIndex;
use role_model::{Grant, RoleDef};
use scalar_val::{List, NoMemory};
use std::alloc::Global;

/// The tables that a role's permissions are for, and the columns of each permission, in their order.
#[derive(Debug, Drop)]
pub struct GrantIndex {
    tables: NumberIndex,
    columns: List<NumberIndex>,
}

fn copy_of(alloc: Global, numbers: &[u32]) -> Result<List<u32>, NoMemory>
    ensures { IfOk result (λ copy. copy ≡ numbers.now) }
{
    let mut copy = List::new(alloc);
    for number in numbers {
        copy.add(*number)?;
    }
    Ok(copy)
}

fn tables_of(alloc: Global, grants: &[Grant]) -> Result<NumberIndex, NoMemory>
    ensures { IfOk result (λ tables. tables ≡ tables_of grants.now) }
{
    let mut tables = List::new(alloc);
    for grant in grants {
        tables.add(grant.table)?;
    }
    NumberIndex::of(alloc, tables)
}

fn columns_of(alloc: Global, grants: &[Grant]) -> Result<List<NumberIndex>, NoMemory>
    ensures { IfOk result (λ columns. columns ≡ columns_of grants.now) }
{
    let mut columns = List::new(alloc);
    for grant in grants {
        let copy = copy_of(alloc, grant.columns.as_slice())?;
        columns.add(NumberIndex::of(alloc, copy)?)?;
    }
    Ok(columns)
}

fn index_of(alloc: Global, role: &RoleDef) -> Result<GrantIndex, NoMemory>
    ensures { IfOk result (λ index. index ≡ index_of role.now) }
{
    let grants = role.grants.as_slice();
    Ok(GrantIndex {
        tables: tables_of(alloc, grants)?,
        columns: columns_of(alloc, grants)?,
    })
}

/// The index of each role's permissions.
pub fn indexes_of_all(alloc: Global, roles: &[RoleDef]) -> Result<List<GrantIndex>, NoMemory>
    ensures { IfOk result (λ indexes. indexes ≡ map index_of roles.now) }
{
    let mut indexes = List::new(alloc);
    for role in roles {
        indexes.add(index_of(alloc, role)?)?;
    }
    Ok(indexes)
}

fn is_among(numbers: Option<&NumberIndex>, number: u32) -> bool
    ensures { result ≡ is_some (option_and_then (λ (ns : List ℕ). first_number ns number) (option_copied numbers.entry)) }
{
    match numbers {
        Some(numbers) => numbers.place(number).is_some(),
        None => false,
    }
}

impl GrantIndex {
    /// The place of the permission for a table.
    pub fn place(&self, table: u32) -> Option<usize>
        ensures { result ≡ first_number self.now.tables table }
    {
        self.tables.place(table)
    }

    /// Whether the permission for a table has a column.
    pub fn has_column(&self, table: u32, column: u32) -> bool
        ensures { result ≡ index_has self.now table column }
    {
        match self.tables.place(table) {
            Some(at) => is_among(self.columns.get(at), column),
            None => false,
        }
    }
}
