ghost use Rattle.std.specs.Prelude.{◌≡◌, ◌<◌, [], None, unwrap_or, IfOk, OnOk};
ghost use Rattle.std.specs.Option.{option_copied};
ghost use Rattle.std.specs.BTreeMap.{UpdatesBy};
ghost use Rattle.std.specs.Ordering.{nat_cmp};
ghost use Rattle.std.specs.Cmp.Lexicographic.{slice_cmp};
ghost use Rattle.role_model.specs.Texts.{Text};
ghost use Rattle.metadata_read.specs.Few.{IsNarrow, AreFew};
ghost use Rattle.metadata_read.specs.Held.{ends_at, with_held, with_one, with_each, kept_by, held_of};

use role_model::{PermissionEntry, TableEntry};
use scalar_val::{List, NoMemory};
use std::alloc::Global;
use std::collections::BTreeMap;
use std::marker::Model;

/// A permission, with its table, of at most 64 columns, and the place of the table, below 256.
#[derive(Drop)]
pub struct Held<'a> {
    pub at: usize,
    pub table: &'a TableEntry,
    pub permission: &'a PermissionEntry,
}

impl<'a> Model for Held<'a> {
    ghost use Rattle.metadata_read.specs.Held.{HeldPermission};

    ghost Value = { HeldPermission };

    ghost use Rattle.role_model.specs.contracts.metadata.TableEntry as table_row;
    ghost use Rattle.role_model.specs.contracts.metadata.PermissionEntry as permission_row;
    ghost use Rattle.std.specs.Coded.{codes};

    ghost coded = { Prim.hlevel (codes, table_row.the_row.coded, permission_row.the_row.coded) };

    ghost view = { λ h. record { at = h.at; table = h.table.now; permission = h.permission.now } };

    ghost use Rattle.std.specs.Prelude.{◌<◌};
    ghost use Rattle.metadata_read.specs.Few.{IsNarrow};

    ghost invariant = { λ h. (h.at < 256) × IsNarrow h.table.now };
}

pub type HeldList<'a> = List<Held<'a>>;

/// The permissions of each role, by the role's name.
pub type HeldMap<'a> = BTreeMap<&'a str, HeldList<'a>>;

fn ends_at(own: &[Held<'_>], at: usize) -> bool
    ensures { result ≡ ends_at own.now at }
{
    match own.last() {
        Some(held) => held.at == at,
        None => false,
    }
}

/// Adds a permission at the end, if it is the first of its table.
fn add<'a>(own: &mut HeldList<'a>, held: Held<'a>) -> Result<(), NoMemory>
    ensures { OnOk result (own.new ≡ with_held own.old held.entry) }
{
    if ends_at(own.as_slice(), held.at) {
        return Ok(());
    }
    match own.push(held) {
        Ok(()) => Ok(()),
        Err(_back) => Err(NoMemory),
    }
}

/// Takes what a role has out of the map.
fn take_own<'a>(alloc: Global, kept: &mut HeldMap<'a>, role: &str) -> HeldList<'a>
    ensures own { result ≡ kept_by kept.old role.now }
    ensures updates { UpdatesBy (λ x y. slice_cmp nat_cmp x.now y.now) (λ k. slice_cmp nat_cmp role.now k.now) kept.old kept.new None }
{
    match kept.remove(role) {
        Some(own) => own,
        None => HeldList::new(alloc),
    }
}

/// Gives a permission to its role.
fn keep<'a>(alloc: Global, kept: &mut HeldMap<'a>, held: Held<'a>) -> Result<(), NoMemory>
    ensures { OnOk result ((q : Text) → kept_by kept.new q ≡ with_one q (kept_by kept.old q) held.entry) }
{
    let role = held.permission.role.as_str();
    let mut own = take_own(alloc, kept, role);
    add(&mut own, held)?;
    match kept.insert(role, own) {
        Ok(_before) => Ok(()),
        Err(_refused) => Err(NoMemory),
    }
}

/// Gives the permissions of a table to their roles.
fn keep_of_table<'a>(
    alloc: Global,
    kept: &mut HeldMap<'a>,
    at: usize,
    table: &'a TableEntry,
) -> Result<(), NoMemory>
    requires place { at < 256 }
    requires narrow { IsNarrow table.now }
    ensures { OnOk result ((q : Text) → kept_by kept.new q ≡ with_each q at table.now (kept_by kept.old q) table.now.select) }
{
    for permission in table.select.as_slice() {
        keep(
            alloc,
            kept,
            Held {
                at,
                table,
                permission,
            },
        )?;
    }
    Ok(())
}

/// The permissions of all roles, each role's in the order of the tables. Of two of one table the first counts.
pub fn held_by_role<'a>(alloc: Global, tables: &'a [TableEntry]) -> Result<HeldMap<'a>, NoMemory>
    requires few { AreFew tables.now }
    ensures { IfOk result (λ kept. (q : Text) → kept_by kept q ≡ held_of tables.now q) }
{
    let mut kept = HeldMap::new(alloc);
    for at in 0..tables.len() {
        keep_of_table(alloc, &mut kept, at, &tables[at])?;
    }
    Ok(kept)
}

/// The permissions of a role, or `None` where it has none.
pub fn held_in<'b, 'a>(kept: &'b HeldMap<'a>, role: &str) -> Option<&'b HeldList<'a>>
    ensures { unwrap_or (option_copied result) [] ≡ kept_by kept.now role.now }
{
    kept.get(role)
}
