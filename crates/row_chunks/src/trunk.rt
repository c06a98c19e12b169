ghost use Rattle.std.specs.Prelude.{◌≡◌, ◌++◌, ◌+◌, ◌^◌, ◌≤◌, ◌<◌, List, [], ◌∷◌, insert, length, slice_index_or, IfOk, OnOk, OnErr};
ghost use Rattle.std.specs.Arc.{arc_value};
ghost use Rattle.row_chunks.specs.Edits.{HasRoom, IsPlace, count_after, edited};
ghost use Rattle.row_chunks.specs.Pieces.{AllCounted, IsCounted, rows_in};

use crate::branch::{Branch, change_branch};
use crate::chunk::Chunk;
use crate::edit::{Edit, TryCopy, count_after, is_last};
use crate::piece::{Piece, count_in, find, share_pieces};
use scalar_val::{NoMemory, Steps};
use std::alloc::Global;
use std::marker::Model;
use std::sync::Arc;
use std::sync::ledger::Ledger;

/// A branch with so many chunks is divided before a row is put into it.
const FULL: usize = 128;

/// All branches of a list.
#[derive(Drop)]
pub(crate) struct Trunk<T> {
    pub(crate) branches: Vec<Piece<Branch<T>>>,
    count: usize,
}

impl<T> Model for Trunk<T> {
    ghost use Rattle.std.specs.Prelude.{◌≡◌, List, length};
    ghost use Rattle.std.specs.Coded.{coded_list};
    ghost use Rattle.row_chunks.specs.Pieces.{AllCounted, rows_in};

    ghost Value = { List T };

    ghost coded = { coded_list T.code };

    ghost view = { λ t. rows_in t.branches.items };

    ghost invariant = { λ t. AllCounted t.branches.items × (t.count ≡ length (rows_in t.branches.items)) };
}

/// Does an edit in the branch of a piece, which keeps a row at least.
fn change_piece<T: TryCopy, L: Ledger>(
    alloc: Global,
    piece: &mut Piece<Branch<T>>,
    at: usize,
    edit: Edit<T>,
    steps: &mut Steps<L>,
) -> Result<(), NoMemory>
    requires counted { IsCounted piece.old }
    requires place { IsPlace edit at piece.old.count }
    requires some { 0 < count_after edit piece.old.count }
    requires room { HasRoom edit piece.old.count }
    ensures counted { IsCounted piece.new }
    ensures ok { OnOk result (piece.new.node ≡ edited edit at piece.old.node) }
    ensures err { OnErr result (piece.new ≡ piece.old) }
    ensures steps { steps.new ≤ steps.old + 64 }
{
    let count = count_after(&edit, piece.count);
    change_branch(alloc, &mut piece.node, at, edit, steps)?;
    piece.count = count;
    Ok(())
}

/// A branch of some chunks, which others have too.
fn branch_of<T: TryCopy>(
    alloc: Global,
    chunks: &[Piece<Chunk<T>>],
) -> Result<Piece<Branch<T>>, NoMemory>
    requires counted { AllCounted chunks.now }
    requires some { 0 < length chunks.now }
    requires room { length (rows_in chunks.now) < 2 ^ 64 }
    ensures counted { IfOk result (λ piece. IsCounted piece) }
    ensures rows { IfOk result (λ piece. piece.node ≡ rows_in chunks.now) }
{
    let count = count_in(chunks);
    let chunks = share_pieces(alloc, chunks)?;
    Piece::of(alloc, count, Branch { chunks })
}

/// Where a full branch is divided. The last one keeps all but its last chunk, so that branches are full where rows are
/// added at the end.
fn cut_of(chunks: usize, is_last: bool) -> usize
    requires { 2 ≤ chunks }
    ensures some { 0 < result }
    ensures rest { result < chunks }
{
    if is_last { chunks - 1 } else { chunks / 2 }
}

/// Divides the branch at a place where it is full. The rows stay the same.
fn divide<T: TryCopy>(
    alloc: Global,
    branches: &mut Vec<Piece<Branch<T>>>,
    index: usize,
) -> Result<(), NoMemory>
    requires counted { AllCounted branches.old.items }
    requires within { index < length branches.old.items }
    requires room { length (rows_in branches.old.items) < 2 ^ 64 }
    ensures counted { AllCounted branches.new.items }
    ensures same { rows_in branches.new.items ≡ rows_in branches.old.items }
{
    let branch = branches[index].node();
    let chunks = branch.chunks.as_slice();
    if chunks.len() < FULL {
        return Ok(());
    }
    let cut = cut_of(chunks.len(), index + 1 == branches.len());
    let left = branch_of(alloc, &chunks[..cut])?;
    let right = branch_of(alloc, &chunks[cut..])?;
    branches.insert(index + 1, right)?;
    branches[index] = left;
    Ok(())
}

/// Does an edit at a place of some branches.
fn change_branches<T: TryCopy, L: Ledger>(
    alloc: Global,
    branches: &mut Vec<Piece<Branch<T>>>,
    at: usize,
    edit: Edit<T>,
    steps: &mut Steps<L>,
) -> Result<(), NoMemory>
    requires counted { AllCounted branches.old.items }
    requires some { 0 < length (rows_in branches.old.items) }
    requires room { HasRoom edit (length (rows_in branches.old.items)) }
    requires place { IsPlace edit at (length (rows_in branches.old.items)) }
    ensures counted { AllCounted branches.new.items }
    ensures ok { OnOk result (rows_in branches.new.items ≡ edited edit at (rows_in branches.old.items)) }
    ensures err { OnErr result (rows_in branches.new.items ≡ rows_in branches.old.items) }
    ensures steps { steps.new ≤ steps.old + 64 }
{
    let spot = find(branches.as_slice(), at);
    if is_last(&edit, branches[spot.index].count()) {
        drop(branches.remove(spot.index));
        return Ok(());
    }
    change_piece(alloc, &mut branches[spot.index], spot.offset, edit, steps)
}

/// Puts the first row into a list.
fn start<T: TryCopy>(
    alloc: Global,
    branches: &mut Vec<Piece<Branch<T>>>,
    row: T,
) -> Result<(), NoMemory>
    requires counted { AllCounted branches.old.items }
    ensures counted { AllCounted branches.new.items }
    ensures ok { OnOk result (rows_in branches.new.items ≡ rows_in branches.old.items ++ row ∷ []) }
    ensures err { OnErr result (rows_in branches.new.items ≡ rows_in branches.old.items) }
{
    let piece = Piece::of(alloc, 1, Branch::one(alloc, row)?)?;
    branches.push(piece)?;
    Ok(())
}

impl<T> Trunk<T> {
    /// No rows.
    pub(crate) fn new(alloc: Global) -> Trunk<T>
        ensures { result ≡ [] }
    {
        Trunk {
            branches: Vec::new(alloc),
            count: 0,
        }
    }

    pub(crate) fn len(&self) -> usize
        ensures { result ≡ length self.now }
    {
        self.count
    }

    pub(crate) fn get(&self, at: usize) -> &T
        requires { at < length self.now }
        ensures { result.now ≡ slice_index_or self.now at result.now }
    {
        let spot = find(self.branches.as_slice(), at);
        let branch = self.branches[spot.index].node();
        branch.get(spot.offset)
    }
}

impl<T: TryCopy> Trunk<T> {
    /// Makes room for a row where it is put in, so that no branch grows without end.
    fn make_room(&mut self, alloc: Global, at: usize) -> Result<(), NoMemory>
        requires some { 0 < length self.old }
        requires within { at ≤ length self.old }
        ensures { self.new ≡ self.old }
    {
        let index = find(self.branches.as_slice(), at).index;
        divide(alloc, &mut self.branches, index)
    }

    fn change_within<L: Ledger>(
        &mut self,
        alloc: Global,
        at: usize,
        edit: Edit<T>,
        steps: &mut Steps<L>,
    ) -> Result<(), NoMemory>
        requires some { 0 < length self.old }
        requires room { HasRoom edit (length self.old) }
        requires place { IsPlace edit at (length self.old) }
        ensures ok { OnOk result (self.new ≡ edited edit at self.old) }
        ensures err { OnErr result (self.new ≡ self.old) }
        ensures steps { steps.new ≤ steps.old + 64 }
    {
        let count = count_after(&edit, self.count);
        change_branches(alloc, &mut self.branches, at, edit, steps)?;
        self.count = count;
        Ok(())
    }

    fn start(&mut self, alloc: Global, row: T) -> Result<(), NoMemory>
        requires { self.old ≡ [] }
        ensures ok { OnOk result (self.new ≡ row ∷ []) }
        ensures err { OnErr result (self.new ≡ self.old) }
    {
        start(alloc, &mut self.branches, row)?;
        self.count = 1;
        Ok(())
    }

    fn insert<L: Ledger>(
        &mut self,
        alloc: Global,
        at: usize,
        row: T,
        steps: &mut Steps<L>,
    ) -> Result<(), NoMemory>
        requires room { length self.old + 1 < 2 ^ 64 }
        requires place { at ≤ length self.old }
        ensures ok { OnOk result (self.new ≡ insert self.old at row) }
        ensures err { OnErr result (self.new ≡ self.old) }
        ensures steps { steps.new ≤ steps.old + 64 }
    {
        if self.count == 0 {
            return self.start(alloc, row);
        }
        self.make_room(alloc, at)?;
        self.change_within(alloc, at, Edit::Insert(row), steps)
    }

    fn change<L: Ledger>(
        &mut self,
        alloc: Global,
        at: usize,
        edit: Edit<T>,
        steps: &mut Steps<L>,
    ) -> Result<(), NoMemory>
        requires room { HasRoom edit (length self.old) }
        requires place { IsPlace edit at (length self.old) }
        ensures ok { OnOk result (self.new ≡ edited edit at self.old) }
        ensures err { OnErr result (self.new ≡ self.old) }
        ensures steps { steps.new ≤ steps.old + 64 }
    {
        match edit {
            Edit::Insert(row) => self.insert(alloc, at, row, steps),
            other => self.change_within(alloc, at, other, steps),
        }
    }

    /// An equal list, which has all branches in common with this one.
    fn share(&self, alloc: Global) -> Result<Trunk<T>, NoMemory>
        ensures { IfOk result (λ share. share ≡ self.now) }
    {
        let branches = share_pieces(alloc, self.branches.as_slice())?;
        let count = self.count;
        Ok(Trunk { branches, count })
    }
}

/// Does an edit in a list. Where others share it, they keep theirs, and its list of branches is copied first.
pub(crate) fn change_trunk<T: TryCopy, L: Ledger>(
    alloc: Global,
    trunk: &mut Arc<Trunk<T>>,
    at: usize,
    edit: Edit<T>,
    steps: &mut Steps<L>,
) -> Result<(), NoMemory>
    requires room { HasRoom edit (length (arc_value trunk.old)) }
    requires place { IsPlace edit at (length (arc_value trunk.old)) }
    ensures ok { OnOk result (arc_value trunk.new ≡ edited edit at (arc_value trunk.old)) }
    ensures err { OnErr result (arc_value trunk.new ≡ arc_value trunk.old) }
    ensures steps { steps.new ≤ steps.old + 64 }
{
    match Arc::get_mut(trunk) {
        Some(own) => own.change(alloc, at, edit, steps),
        None => {
            let mut copy = trunk.share(alloc)?;
            copy.change(alloc, at, edit, steps)?;
            *trunk = Arc::new(alloc, copy)?;
            Ok(())
        }
    }
}
