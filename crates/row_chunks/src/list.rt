ghost use Rattle.std.specs.Prelude.{◌≡◌, ◌+◌, ◌^◌, ◌≤◌, ◌<◌, ◌↔◌, [], IsTrue, drop, insert, remove, length, slice_get, slice_set, IfOk, OnOk, OnErr};
ghost use Rattle.std.specs.Option.{option_copied};

use crate::edit::{Edit, TryCopy};
use crate::trunk::{Trunk, change_trunk};
use crate::walk::{Walk, walk_from};
use scalar_val::{NoMemory, Steps};
use std::alloc::Global;
use std::marker::Model;
use std::sync::Arc;
use std::sync::ledger::Ledger;

/// A list of rows, which contracts see as that list. The rows stand in chunks of 1 to 64, and what lists have in common
/// is shared until one of them changes: then that one copies the chunk that it changes, if another has it too, and the
/// others stay as they are. A change copies 64 rows at most, with a step for each.
#[derive(Drop)]
pub struct RowChunks<T> {
    trunk: Arc<Trunk<T>>,
}

impl<T> Model for RowChunks<T> {
    ghost use Rattle.std.specs.Prelude.{List};
    ghost use Rattle.std.specs.Coded.{coded_list};
    ghost use Rattle.std.specs.Arc.{arc_value};

    ghost Value = { List T };

    ghost coded = { coded_list T.code };

    ghost view = { λ r. arc_value r.trunk };
}

impl<T> RowChunks<T> {
    pub fn len(&self) -> usize
        ensures { result ≡ length self.now }
    {
        self.trunk.len()
    }

    pub fn is_empty(&self) -> bool
        ensures { IsTrue result ↔ (self.now ≡ []) }
    {
        self.trunk.len() == 0
    }

    /// The row at a place from 0, or `None` past the end. It takes a time that grows with the root of the length.
    pub fn get(&self, place: usize) -> Option<&T>
        ensures { option_copied result ≡ slice_get self.now place }
    {
        if self.trunk.len() <= place {
            return None;
        }
        Some(self.trunk.get(place))
    }

    /// The rows from a place on, in their order, chunk by chunk.
    pub fn walk(&self, place: usize) -> Walk<'_, T>
        ensures { result ≡ drop place self.now }
    {
        walk_from(&self.trunk, place)
    }
}

impl<T: TryCopy> RowChunks<T> {
    /// A list without rows.
    pub fn new(alloc: Global) -> Result<RowChunks<T>, NoMemory>
        ensures { IfOk result (λ list. list ≡ []) }
    {
        let trunk = Arc::new(alloc, Trunk::new(alloc))?;
        Ok(RowChunks { trunk })
    }

    /// An equal list, which has all chunks in common with this one. No row is copied.
    pub fn share(&self) -> Result<RowChunks<T>, NoMemory>
        ensures { IfOk result (λ share. share ≡ self.now) }
    {
        let trunk = Arc::try_clone(&self.trunk)?;
        Ok(RowChunks { trunk })
    }

    /// Puts a row in at a place. For want of memory the list stays as it is, and the row is dropped.
    pub fn insert<L: Ledger>(
        &mut self,
        alloc: Global,
        place: usize,
        row: T,
        steps: &mut Steps<L>,
    ) -> Result<(), NoMemory>
        requires place { place ≤ length self.old }
        ensures ok { OnOk result (self.new ≡ insert self.old place row) }
        ensures err { OnErr result (self.new ≡ self.old) }
        ensures steps { steps.new ≤ steps.old + 64 }
    {
        if self.trunk.len() == usize::MAX {
            return Err(NoMemory);
        }
        change_trunk(alloc, &mut self.trunk, place, Edit::Insert(row), steps)
    }

    /// Puts a row in the place of another. For want of memory the list stays as it is, and the row is dropped.
    pub fn replace<L: Ledger>(
        &mut self,
        alloc: Global,
        place: usize,
        row: T,
        steps: &mut Steps<L>,
    ) -> Result<(), NoMemory>
        requires place { place < length self.old }
        ensures ok { OnOk result (self.new ≡ slice_set self.old place row) }
        ensures err { OnErr result (self.new ≡ self.old) }
        ensures steps { steps.new ≤ steps.old + 64 }
    {
        change_trunk(alloc, &mut self.trunk, place, Edit::Replace(row), steps)
    }

    /// Takes out the row at a place. For want of memory the list stays as it is.
    pub fn remove<L: Ledger>(
        &mut self,
        alloc: Global,
        place: usize,
        steps: &mut Steps<L>,
    ) -> Result<(), NoMemory>
        requires place { place < length self.old }
        ensures ok { OnOk result (self.new ≡ remove self.old place) }
        ensures err { OnErr result (self.new ≡ self.old) }
        ensures steps { steps.new ≤ steps.old + 64 }
    {
        change_trunk(alloc, &mut self.trunk, place, Edit::Remove, steps)
    }
}
