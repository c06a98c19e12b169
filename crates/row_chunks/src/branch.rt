ghost use Rattle.std.specs.Prelude.{◌≡◌, ◌++◌, ◌+◌, ◌^◌, ◌≤◌, ◌<◌, List, [], ◌∷◌, insert, length, max, slice_index_or, IfOk, OnOk, OnErr};
ghost use Rattle.std.specs.Arc.{arc_value};
ghost use Rattle.row_chunks.specs.Edits.{IsPlace, count_after, edited};
ghost use Rattle.row_chunks.specs.Pieces.{AllCounted, Held, IsCounted, IsSpot, rows_in};

use crate::chunk::{Chunk, MOST, change_chunk, divided};
use crate::edit::{Edit, TryCopy, count_after, is_last};
use crate::piece::{Piece, Spot, find, share_pieces};
use scalar_val::{NoMemory, Steps};
use std::alloc::Global;
use std::marker::Model;
use std::sync::Arc;
use std::sync::ledger::Ledger;

/// Chunks that lists have in common.
#[derive(Drop)]
pub(crate) struct Branch<T> {
    pub(crate) chunks: Vec<Piece<Chunk<T>>>,
}

impl<T> Model for Branch<T> {
    ghost use Rattle.std.specs.Prelude.{List};
    ghost use Rattle.std.specs.Coded.{coded_list};
    ghost use Rattle.row_chunks.specs.Pieces.{AllCounted, rows_in};

    ghost Value = { List T };

    ghost coded = { coded_list T.code };

    ghost view = { λ b. rows_in b.chunks.items };

    ghost invariant = { λ b. AllCounted b.chunks.items };
}

/// Does an edit in the chunk of a piece, which stays one of 1 to 64 rows.
fn change_piece<T: TryCopy, L: Ledger>(
    alloc: Global,
    piece: &mut Piece<Chunk<T>>,
    at: usize,
    edit: Edit<T>,
    steps: &mut Steps<L>,
) -> Result<(), NoMemory>
    requires counted { IsCounted piece.old }
    requires place { IsPlace edit at piece.old.count }
    requires some { 0 < count_after edit piece.old.count }
    requires room { count_after edit piece.old.count ≤ max 64 piece.old.count }
    ensures counted { IsCounted piece.new }
    ensures ok { OnOk result (piece.new.node ≡ edited edit at piece.old.node) }
    ensures err { OnErr result (piece.new ≡ piece.old) }
    ensures steps { steps.new ≤ steps.old + 64 }
{
    let chunk: &Chunk<T> = &piece.node;
    let count = count_after(&edit, chunk.as_slice().len());
    change_chunk(alloc, &mut piece.node, at, edit, steps)?;
    piece.count = count;
    Ok(())
}

/// Puts a row into a full chunk, in whose place two stand then.
fn divide<T: TryCopy, L: Ledger>(
    alloc: Global,
    chunks: &mut Vec<Piece<Chunk<T>>>,
    at: usize,
    spot: Spot,
    row: T,
    steps: &mut Steps<L>,
) -> Result<(), NoMemory>
    requires counted { AllCounted chunks.old.items }
    requires spot { IsSpot chunks.old.items at spot.index spot.offset }
    requires place { at ≤ length (rows_in chunks.old.items) }
    requires full { (d : Held (List T)) → 64 ≤ (slice_index_or chunks.old.items spot.index d).count }
    ensures counted { AllCounted chunks.new.items }
    ensures ok { OnOk result (rows_in chunks.new.items ≡ insert (rows_in chunks.old.items) at row) }
    ensures err { OnErr result (chunks.new.items ≡ chunks.old.items) }
    ensures steps { steps.new ≤ steps.old + 64 }
{
    let halves = divided(alloc, chunks[spot.index].node(), spot.offset, row, steps)?;
    let (left_count, right_count) = (halves.left.as_slice().len(), halves.right.as_slice().len());
    let left = Piece::of(alloc, left_count, halves.left)?;
    let right = Piece::of(alloc, right_count, halves.right)?;
    chunks.insert(spot.index + 1, right)?;
    chunks[spot.index] = left;
    Ok(())
}

/// Does an edit at a place of some chunks.
fn change_chunks<T: TryCopy, L: Ledger>(
    alloc: Global,
    chunks: &mut Vec<Piece<Chunk<T>>>,
    at: usize,
    edit: Edit<T>,
    steps: &mut Steps<L>,
) -> Result<(), NoMemory>
    requires counted { AllCounted chunks.old.items }
    requires some { 0 < length (rows_in chunks.old.items) }
    requires place { IsPlace edit at (length (rows_in chunks.old.items)) }
    ensures counted { AllCounted chunks.new.items }
    ensures ok { OnOk result (rows_in chunks.new.items ≡ edited edit at (rows_in chunks.old.items)) }
    ensures err { OnErr result (rows_in chunks.new.items ≡ rows_in chunks.old.items) }
    ensures steps { steps.new ≤ steps.old + 64 }
{
    let spot = find(chunks.as_slice(), at);
    let count = chunks[spot.index].count();
    if is_last(&edit, count) {
        drop(chunks.remove(spot.index));
        return Ok(());
    }
    match edit {
        Edit::Insert(row) => {
            if MOST <= count {
                return divide(alloc, chunks, at, spot, row, steps);
            }
            let edit = Edit::Insert(row);
            change_piece(alloc, &mut chunks[spot.index], spot.offset, edit, steps)
        }
        Edit::Replace(row) => {
            let edit = Edit::Replace(row);
            change_piece(alloc, &mut chunks[spot.index], spot.offset, edit, steps)
        }
        Edit::Remove => {
            change_piece(
                alloc,
                &mut chunks[spot.index],
                spot.offset,
                Edit::Remove,
                steps,
            )
        }
    }
}

impl<T> Branch<T> {
    pub(crate) fn get(&self, at: usize) -> &T
        requires { at < length self.now }
        ensures { result.now ≡ slice_index_or self.now at result.now }
    {
        let spot = find(self.chunks.as_slice(), at);
        let chunk = self.chunks[spot.index].node();
        &chunk.as_slice()[spot.offset]
    }
}

impl<T: TryCopy> Branch<T> {
    /// A branch of one row.
    pub(crate) fn one(alloc: Global, row: T) -> Result<Branch<T>, NoMemory>
        ensures { IfOk result (λ branch. branch ≡ row ∷ []) }
    {
        let chunk = Chunk::one(alloc, row)?;
        let mut chunks = Vec::new(alloc);
        chunks.push(Piece::of(alloc, 1, chunk)?)?;
        Ok(Branch { chunks })
    }

    fn change<L: Ledger>(
        &mut self,
        alloc: Global,
        at: usize,
        edit: Edit<T>,
        steps: &mut Steps<L>,
    ) -> Result<(), NoMemory>
        requires some { 0 < length self.old }
        requires place { IsPlace edit at (length self.old) }
        ensures ok { OnOk result (self.new ≡ edited edit at self.old) }
        ensures err { OnErr result (self.new ≡ self.old) }
        ensures steps { steps.new ≤ steps.old + 64 }
    {
        change_chunks(alloc, &mut self.chunks, at, edit, steps)
    }

    /// An equal branch, which has all chunks in common with this one.
    fn share(&self, alloc: Global) -> Result<Branch<T>, NoMemory>
        ensures { IfOk result (λ share. share ≡ self.now) }
    {
        let chunks = share_pieces(alloc, self.chunks.as_slice())?;
        Ok(Branch { chunks })
    }
}

/// Does an edit in a branch. Where others share it, they keep theirs, and its list of chunks is copied first.
pub(crate) fn change_branch<T: TryCopy, L: Ledger>(
    alloc: Global,
    branch: &mut Arc<Branch<T>>,
    at: usize,
    edit: Edit<T>,
    steps: &mut Steps<L>,
) -> Result<(), NoMemory>
    requires some { 0 < length (arc_value branch.old) }
    requires place { IsPlace edit at (length (arc_value branch.old)) }
    ensures ok { OnOk result (arc_value branch.new ≡ edited edit at (arc_value branch.old)) }
    ensures err { OnErr result (arc_value branch.new ≡ arc_value branch.old) }
    ensures steps { steps.new ≤ steps.old + 64 }
{
    match Arc::get_mut(branch) {
        Some(own) => own.change(alloc, at, edit, steps),
        None => {
            let mut copy = branch.share(alloc)?;
            copy.change(alloc, at, edit, steps)?;
            *branch = Arc::new(alloc, copy)?;
            Ok(())
        }
    }
}
