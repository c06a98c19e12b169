ghost use Rattle.std.specs.Prelude.{◌≡◌, true, ◌↔◌, [], ◌∷◌, ◌++◌, ◌+◌, ◌<◌, length, slice_get, IfOk, IfErr, OnErr};
ghost use Rattle.std.specs.Option.{option_copied};

use plan_core::Binding;
use scalar_val::List;
use std::alloc::Global;
use std::marker::Model;

/// A binding and its result id.
#[derive(Debug, Drop)]
pub struct RelRow {
    pub id: u32,
    pub binding: Binding,
}

/// Bindings with the ids 1, 2 and so on.
#[derive(Debug, Drop)]
pub struct Relation {
    rows: List<RelRow>,
}

impl Model for Relation {
    ghost use Rattle.std.specs.Prelude.{List};
    ghost use Rattle.batch_rel.specs.declared.relation.RelRow.{RelRow};
    ghost use Rattle.batch_rel.specs.Numbers.{Numbered};

    ghost Value = { List RelRow };

    ghost view = { λ r. r.rows };

    ghost invariant = { λ r. Numbered 1 r.rows };
}

impl Relation {
    ghost use Rattle.batch_rel.specs.Numbers.{Numbered};

    pub fn new(alloc: Global) -> Relation
        ensures { result ≡ [] }
    {
        Relation {
            rows: List::new(alloc),
        }
    }

    pub fn is_empty(&self) -> bool
        ensures { result ≡ true ↔ (self.now ≡ []) }
    {
        self.rows.is_empty()
    }

    pub fn len(&self) -> usize
        ensures { result ≡ length self.now }
    {
        self.rows.len()
    }

    /// The row at a place from 0, or `None` past the end.
    pub fn get(&self, at: usize) -> Option<&RelRow>
        ensures { option_copied result ≡ slice_get self.now at }
    {
        self.rows.get(at)
    }

    pub fn as_slice(&self) -> &[RelRow]
        ensures rows { result.now ≡ self.now }
        ensures ids { Numbered 1 result.now }
    {
        self.rows.as_slice()
    }

    /// Adds a binding under the next id, or hands it back for want of memory.
    pub fn push(&mut self, binding: Binding) -> Result<u32, Binding>
        requires { length self.old < 4294967295 }
        ensures id { IfOk result (λ id. id ≡ length self.old + 1) }
        ensures ok { IfOk result (λ id. self.new ≡ self.old ++ record { id = id; binding = binding } ∷ []) }
        ensures err { OnErr result (self.new ≡ self.old) }
        ensures handed_back { IfErr result (λ back. back ≡ binding) }
    {
        let id = self.rows.len() as u32 + 1;
        match self.rows.push(RelRow { id, binding }) {
            Ok(()) => Ok(id),
            Err(row) => {
                let RelRow { binding, .. } = row;
                Err(binding)
            }
        }
    }
}
