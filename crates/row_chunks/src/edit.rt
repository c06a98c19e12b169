ghost use Rattle.std.specs.Prelude.{◌≡◌, ◌<◌, true, false, IfOk};
ghost use Rattle.row_chunks.specs.Edits.{HasRoom, count_after};

use scalar_val::NoMemory;
use std::alloc::Global;

/// What a list can copy, row by row, where its rows are shared.
pub trait TryCopy: Drop + Sized {
    /// An equal one.
    fn try_copy(&self, alloc: Global) -> Result<Self, NoMemory>
        ensures { IfOk result (λ copy. copy ≡ self.now) };
}

/// What is done at a place of a list.
#[derive(Drop)]
pub(crate) enum Edit<T> {
    Insert(T),
    Replace(T),
    Remove,
}

/// How many rows there are after an edit.
pub(crate) fn count_after<T>(edit: &Edit<T>, count: usize) -> usize
    requires room { HasRoom edit.now count }
    requires some { 0 < count }
    ensures { result ≡ count_after edit.now count }
{
    match edit {
        Edit::Insert(_) => count + 1,
        Edit::Replace(_) => count,
        Edit::Remove => count - 1,
    }
}

/// Whether an edit takes out the last row.
pub(crate) fn is_last<T>(edit: &Edit<T>, count: usize) -> bool
    requires { 0 < count }
    ensures last { result ≡ true → count_after edit.now count ≡ 0 }
    ensures more { result ≡ false → 0 < count_after edit.now count }
{
    match edit {
        Edit::Remove => count == 1,
        _ => false,
    }
}
