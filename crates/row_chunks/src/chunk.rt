ghost use Rattle.std.specs.Prelude.{◌≡◌, ◌++◌, ◌+◌, ◌≤◌, ◌<◌, [], ◌∷◌, insert, length, max, IfOk, OnOk, OnErr};
ghost use Rattle.std.specs.Arc.{arc_value};
ghost use Rattle.row_chunks.specs.Edits.{IsPlace, count_after, edited};

use crate::edit::{Edit, TryCopy};
use scalar_val::{NoMemory, Steps};
use std::alloc::Global;
use std::marker::Model;
use std::sync::Arc;
use std::sync::ledger::Ledger;

/// A chunk has so many rows at most.
pub(crate) const MOST: usize = 64;

/// A full chunk is divided after so many rows.
const HALF: usize = 32;

/// Rows that lists have in common: 64 at most.
#[derive(Drop)]
pub(crate) struct Chunk<T> {
    rows: Vec<T>,
}

impl<T> Model for Chunk<T> {
    ghost use Rattle.std.specs.Prelude.{List, length, ◌≤◌};
    ghost use Rattle.std.specs.Coded.{coded_list};

    ghost Value = { List T };

    ghost coded = { coded_list T.code };

    ghost view = { λ c. c.rows.items };

    ghost invariant = { λ c. length c.rows.items ≤ 64 };
}

/// Equal rows, with one step for each, and room for one row more.
fn copy_rows<T: TryCopy, L: Ledger>(
    alloc: Global,
    rows: &[T],
    steps: &mut Steps<L>,
) -> Result<Vec<T>, NoMemory>
    requires { length rows.now ≤ 64 }
    ensures equal { IfOk result (λ copy. copy.items ≡ rows.now) }
    ensures steps { steps.new ≤ steps.old + length rows.now }
{
    let mut copy = Vec::with_capacity(alloc, rows.len() + 1)?;
    for row in rows {
        steps.tick();
        copy.push(row.try_copy(alloc)?)?;
    }
    Ok(copy)
}

/// Does an edit at a place of rows.
fn change_rows<T: Drop>(rows: &mut Vec<T>, at: usize, edit: Edit<T>) -> Result<(), NoMemory>
    requires { IsPlace edit at (length rows.old.items) }
    ensures ok { OnOk result (rows.new.items ≡ edited edit at rows.old.items) }
    ensures err { OnErr result (rows.new.items ≡ rows.old.items) }
{
    match edit {
        Edit::Insert(row) => {
            if rows.insert(at, row).is_err() {
                return Err(NoMemory);
            }
        }
        Edit::Replace(row) => rows[at] = row,
        Edit::Remove => drop(rows.remove(at)),
    }
    Ok(())
}

impl<T> Chunk<T> {
    /// The rows, 64 at most.
    pub(crate) fn as_slice(&self) -> &[T]
        ensures rows { result.now ≡ self.now }
        ensures most { length self.now ≤ 64 }
    {
        self.rows.as_slice()
    }
}

impl<T: Drop> Chunk<T> {
    /// A chunk of one row.
    pub(crate) fn one(alloc: Global, row: T) -> Result<Chunk<T>, NoMemory>
        ensures { IfOk result (λ chunk. chunk ≡ row ∷ []) }
    {
        let mut rows = Vec::new(alloc);
        rows.push(row)?;
        Ok(Chunk { rows })
    }

    fn change(&mut self, at: usize, edit: Edit<T>) -> Result<(), NoMemory>
        requires place { IsPlace edit at (length self.old) }
        requires room { count_after edit (length self.old) ≤ max 64 (length self.old) }
        ensures ok { OnOk result (self.new ≡ edited edit at self.old) }
        ensures err { OnErr result (self.new ≡ self.old) }
    {
        change_rows(&mut self.rows, at, edit)
    }
}

/// Does an edit in a chunk. Where others share it, they keep theirs, and it is copied first.
pub(crate) fn change_chunk<T: TryCopy, L: Ledger>(
    alloc: Global,
    chunk: &mut Arc<Chunk<T>>,
    at: usize,
    edit: Edit<T>,
    steps: &mut Steps<L>,
) -> Result<(), NoMemory>
    requires place { IsPlace edit at (length (arc_value chunk.old)) }
    requires room { count_after edit (length (arc_value chunk.old)) ≤ max 64 (length (arc_value chunk.old)) }
    ensures ok { OnOk result (arc_value chunk.new ≡ edited edit at (arc_value chunk.old)) }
    ensures err { OnErr result (arc_value chunk.new ≡ arc_value chunk.old) }
    ensures steps { steps.new ≤ steps.old + 64 }
{
    match Arc::get_mut(chunk) {
        Some(own) => own.change(at, edit),
        None => {
            let mut rows = copy_rows(alloc, chunk.as_slice(), steps)?;
            change_rows(&mut rows, at, edit)?;
            *chunk = Arc::new(alloc, Chunk { rows })?;
            Ok(())
        }
    }
}

/// The two chunks that a full one is divided into with one row more.
#[derive(Drop)]
pub(crate) struct Halves<T> {
    pub(crate) left: Chunk<T>,
    pub(crate) right: Chunk<T>,
}

/// Divides a full chunk, with a row more, into one of 32 rows and one of 33. The chunk itself stays as it is.
pub(crate) fn divided<T: TryCopy, L: Ledger>(
    alloc: Global,
    chunk: &Chunk<T>,
    at: usize,
    row: T,
    steps: &mut Steps<L>,
) -> Result<Halves<T>, NoMemory>
    requires full { 64 ≤ length chunk.now }
    requires place { at ≤ length chunk.now }
    ensures rows { IfOk result (λ halves. halves.left ++ halves.right ≡ insert chunk.now at row) }
    ensures left { IfOk result (λ halves. 32 ≤ length halves.left) }
    ensures right { IfOk result (λ halves. 32 ≤ length halves.right) }
    ensures steps { steps.new ≤ steps.old + 64 }
{
    let rows = chunk.as_slice();
    let left = copy_rows(alloc, &rows[..HALF], steps)?;
    let right = copy_rows(alloc, &rows[HALF..], steps)?;
    put_in(left, right, at, row)
}

/// Puts a row into one of two halves of a full chunk.
fn put_in<T: Drop>(left: Vec<T>, right: Vec<T>, at: usize, row: T) -> Result<Halves<T>, NoMemory>
    requires left { length left.items ≡ 32 }
    requires right { length right.items ≡ 32 }
    requires place { at ≤ 64 }
    ensures rows { IfOk result (λ halves. halves.left ++ halves.right ≡ insert (left.items ++ right.items) at row) }
    ensures left { IfOk result (λ halves. 32 ≤ length halves.left) }
    ensures right { IfOk result (λ halves. 32 ≤ length halves.right) }
{
    let (mut left, mut right) = (left, right);
    if at <= HALF {
        change_rows(&mut left, at, Edit::Insert(row))?;
        return Ok(Halves {
            left: Chunk { rows: left },
            right: Chunk { rows: right },
        });
    }
    change_rows(&mut right, at - HALF, Edit::Insert(row))?;
    Ok(Halves {
        left: Chunk { rows: left },
        right: Chunk { rows: right },
    })
}
