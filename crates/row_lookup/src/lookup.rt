//! A table's rows, and what finds some of them.
ghost use Rattle.std.specs.Prelude.{◌≡◌, true, false, drop, IfOk, IfSome};
ghost use Rattle.data_model.specs.Rows.{Row};
ghost use Rattle.row_lookup.specs.Ascending.{AscendsIn};
ghost use Rattle.row_lookup.specs.Chaining.{Chained};
ghost use Rattle.row_lookup.specs.Comparing.{meets, meets_if, meets_both};
ghost use Rattle.row_lookup.specs.Finding.{OnChain, StartsChain};
ghost use Rattle.row_lookup.specs.Narrowing.{Narrowed};

use crate::chain::{Chains, chained, slot};
use crate::comparison::{Comparison, Comparisons};
use crate::found::{Found, Place, Way};
use crate::key::run_of;
use plan_core::Op;
use row_store::Row;
use scalar_val::{NoMemory, Val};
use std::alloc::Global;
use std::marker::Model;

/// Of so many rows each is looked at, and no chain is followed.
const FEW: usize = 4;

/// All rows of a table, and how those are found that have a value in a column: by its order, where the rows ascend in it,
/// or by chains. Contracts see the rows.
#[derive(Drop)]
pub struct Lookup<'a> {
    rows: &'a [Row],
    key: Option<u32>,
    chains: Option<Chains>,
}

impl<'a> Model for Lookup<'a> {
    ghost use Rattle.data_model.specs.Rows.{Rows};
    ghost use Rattle.row_lookup.specs.Finding.{Finds};

    ghost Value = { Rows };

    ghost view = { λ l. l.rows.now };

    ghost invariant = { λ l. Finds l.rows.now l.key l.chains };
}

fn is_never(comparison: &Option<Comparison<'_>>) -> bool
    ensures { result ≡ true → (row : Row) → meets_if comparison.now row ≡ false }
{
    match comparison {
        Some(comparison) => comparison.value.is_null(),
        None => false,
    }
}

fn none_meets(comparisons: &Comparisons<'_>) -> bool
    ensures { result ≡ true → (row : Row) → meets_both comparisons.now row ≡ false }
{
    if is_never(&comparisons.by_key) {
        return true;
    }
    is_never(&comparisons.by_chain)
}

/// The rows of a chain, all of which have the value's slot.
fn chain_of<'r>(rows: &'r [Row], chains: &'r Chains, value: &Val) -> Option<Place<'r>>
    requires { Chained chains.now.column rows.now chains.now.heads.items chains.now.next.items }
    ensures { IfSome result (λ p. StartsChain rows.now chains.now value.now p) }
{
    let size = chains.heads.len();
    if size == 0 {
        return None;
    }
    let slot = slot(size, value);
    Some(Place {
        rows,
        chains,
        slot,
        at: chains.heads[slot],
    })
}

impl<'a> Lookup<'a> {
    /// Rows that are found by the order in which they ascend in a column, if there is such a column.
    pub fn of(rows: &'a [Row], key: Option<u32>) -> Lookup<'a>
        requires { IfSome key (λ column. AscendsIn column rows.now) }
        ensures { result ≡ rows.now }
    {
        Lookup {
            rows,
            key,
            chains: None,
        }
    }

    /// The same rows, found by chains in a column too.
    pub fn chained(self, alloc: Global, column: u32) -> Result<Lookup<'a>, NoMemory>
        ensures { IfOk result (λ lookup. lookup ≡ self.entry) }
    {
        let Lookup { rows, key, .. } = self;
        let chains = Some(chained(alloc, column, rows)?);
        Ok(Lookup { rows, key, chains })
    }

    fn run<'r>(&'r self, comparisons: &Comparisons<'_>) -> &'r [Row]
        ensures { Narrowed (λ row. meets_both comparisons.now row ≡ true) self.now result.now }
    {
        if none_meets(comparisons) {
            return &self.rows[..0];
        }
        let Some(comparison) = &comparisons.by_key else {
            return self.rows;
        };
        match self.key {
            Some(column) if column == comparison.column => run_of(self.rows, comparison),
            _ => self.rows,
        }
    }

    fn chain<'r>(&'r self, comparisons: &Comparisons<'_>) -> Option<Place<'r>>
        ensures on { IfSome result (λ p. OnChain comparisons.now p) }
        ensures rows { IfSome result (λ p. Narrowed (λ row. meets_both comparisons.now row ≡ true) self.now (drop p.at p.rows.now)) }
    {
        let Some(comparison) = &comparisons.by_chain else {
            return None;
        };
        let Some(chains) = &self.chains else {
            return None;
        };
        if comparison.column != chains.column {
            return None;
        }
        match comparison.op {
            Op::Eq => chain_of(self.rows, chains, comparison.value),
            _ => None,
        }
    }

    /// The rows that may meet the comparisons.
    pub fn found<'r>(&'r self, comparisons: Comparisons<'r>) -> Found<'r>
        ensures comparisons { result.comparisons ≡ comparisons.entry }
        ensures rows { Narrowed (λ row. meets_both comparisons.entry row ≡ true) self.now result.rows }
    {
        let run = self.run(&comparisons);
        if run.len() <= FEW {
            return Found {
                comparisons,
                way: Way::Run(run),
            };
        }
        match self.chain(&comparisons) {
            Some(place) => Found {
                comparisons,
                way: Way::Chain(place),
            },
            None => Found {
                comparisons,
                way: Way::Run(run),
            },
        }
    }
}
