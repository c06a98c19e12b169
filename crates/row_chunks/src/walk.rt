ghost use Rattle.std.specs.Prelude.{◌≡◌, ◌++◌, ◌≤◌, ◌<◌, [], drop, length, IfSome, MatchOption};
ghost use Rattle.row_chunks.specs.Pieces.{AllCounted, rows_in};

use crate::branch::Branch;
use crate::chunk::Chunk;
use crate::piece::{Piece, find};
use crate::trunk::Trunk;
use std::marker::Model;

/// Rows that are still to be given, chunk by chunk. Contracts see the list of them.
#[derive(Drop)]
pub struct Walk<'a, T> {
    front: &'a [T],
    chunks: &'a [Piece<Chunk<T>>],
    branches: &'a [Piece<Branch<T>>],
}

impl<'a, T> Model for Walk<'a, T> {
    ghost use Rattle.std.specs.Prelude.{List};
    ghost use Rattle.std.specs.Coded.{coded_list};
    ghost use Rattle.row_chunks.specs.Walks.{rows_left, IsWalk};

    ghost Value = { List T };

    ghost coded = { coded_list T.code };

    ghost view = { rows_left };

    ghost invariant = { IsWalk };
}

impl<'a, T> Walk<'a, T> {
    /// The next rows, 1 to 64 of them, or `None` at the end.
    pub fn next(&mut self) -> Option<&'a [T]>
        ensures rows { MatchOption result (self.old ≡ []) (λ rows. self.old ≡ rows.now ++ self.new) }
        ensures some { IfSome result (λ rows. 0 < length rows.now) }
        ensures most { IfSome result (λ rows. length rows.now ≤ 64) }
    {
        let front = self.front;
        if !front.is_empty() {
            self.front = &front[front.len()..];
            return Some(front);
        }
        if let [chunk, rest @ ..] = self.chunks {
            self.chunks = rest;
            return Some(chunk.node().as_slice());
        }
        let [branch, rest @ ..] = self.branches else {
            return None;
        };
        self.branches = rest;
        let [chunk, rest @ ..] = branch.node().chunks.as_slice() else {
            return None;
        };
        self.chunks = rest;
        Some(chunk.node().as_slice())
    }
}

/// The rows of a list from a place on.
pub(crate) fn walk_from<T>(trunk: &Trunk<T>, place: usize) -> Walk<'_, T>
    ensures { result ≡ drop place trunk.now }
{
    let branches = trunk.branches.as_slice();
    if trunk.len() <= place {
        return Walk {
            front: &[],
            chunks: &[],
            branches: &branches[branches.len()..],
        };
    }
    let spot = find(branches, place);
    let branch = branches[spot.index].node();
    within(branch, spot.offset, &branches[spot.index + 1..])
}

/// The rows of a branch from a place on, and those of the branches after it.
fn within<'a, T>(branch: &'a Branch<T>, at: usize, branches: &'a [Piece<Branch<T>>]) -> Walk<'a, T>
    requires place { at < length branch.now }
    requires counted { AllCounted branches.now }
    ensures { result ≡ drop at branch.now ++ rows_in branches.now }
{
    let chunks = branch.chunks.as_slice();
    let spot = find(chunks, at);
    let rows = chunks[spot.index].node().as_slice();
    Walk {
        front: &rows[spot.offset..],
        chunks: &chunks[spot.index + 1..],
        branches,
    }
}
