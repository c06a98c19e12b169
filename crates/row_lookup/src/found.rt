//! The rows that are found, one after the other.
ghost use Rattle.std.specs.Prelude.{◌≡◌, [], MatchOption};
ghost use Rattle.row_lookup.specs.Finding.{Stepped};

use crate::chain::Chains;
use crate::comparison::Comparisons;
use row_store::Row;
use std::marker::Model;

/// The row of a chain that is next, or the end past all rows.
#[derive(Clone, Copy)]
pub(crate) struct Place<'r> {
    pub(crate) rows: &'r [Row],
    pub(crate) chains: &'r Chains,
    pub(crate) slot: usize,
    pub(crate) at: usize,
}

/// Where the next row comes from: all that are left one after the other, or those of a chain.
#[derive(Clone, Copy)]
pub(crate) enum Way<'r> {
    Run(&'r [Row]),
    Chain(Place<'r>),
}

/// Rows of a table that are still to be looked at, in their order, and comparisons: of the rows that it passes over none
/// meets them. Contracts see the comparisons and all rows that are left.
#[derive(Drop)]
pub struct Found<'r> {
    pub(crate) comparisons: Comparisons<'r>,
    pub(crate) way: Way<'r>,
}

impl<'r> Model for Found<'r> {
    ghost use Rattle.row_lookup.specs.Finding.{Left, seen_left, IsOnWay};

    ghost Value = { Left };

    ghost view = { seen_left };

    ghost invariant = { IsOnWay };
}

impl<'r> Found<'r> {
    /// The next row that may meet the comparisons, or `None` where no rows are left.
    pub fn next(&mut self) -> Option<&'r Row>
        ensures comparisons { self.new.comparisons ≡ self.old.comparisons }
        ensures row { MatchOption result (self.old.rows ≡ []) (λ row. Stepped self.old.comparisons self.old.rows row.now self.new.rows) }
    {
        match self.way {
            Way::Run(rows) => {
                let [row, rest @ ..] = rows else {
                    return None;
                };
                self.way = Way::Run(rest);
                Some(row)
            }
            Way::Chain(place) => {
                let Some(row) = place.rows.get(place.at) else {
                    return None;
                };
                let at = place.chains.next[place.at];
                self.way = Way::Chain(Place { at, ..place });
                Some(row)
            }
        }
    }
}
