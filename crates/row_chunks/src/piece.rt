ghost use Rattle.std.specs.Prelude.{◌≡◌, ◌^◌, ◌<◌, ◌≤◌, length, IfOk};
ghost use Rattle.row_chunks.specs.Pieces.{IsSpot, count_in};

use scalar_val::NoMemory;
use std::alloc::Global;
use std::marker::Model;
use std::sync::Arc;

/// A part of a list that other lists may share, and how many rows it has.
#[derive(Drop)]
pub(crate) struct Piece<N> {
    pub(crate) count: usize,
    pub(crate) node: Arc<N>,
}

impl<N> Model for Piece<N> {
    ghost use Rattle.std.specs.Arc.{arc_value};
    ghost use Rattle.row_chunks.specs.Pieces.{Held};

    ghost Value = { Held N };

    ghost view = { λ p. record { count = p.count; node = arc_value p.node } };
}

impl<N: Drop> Piece<N> {
    pub(crate) fn of(alloc: Global, count: usize, node: N) -> Result<Piece<N>, NoMemory>
        ensures count { IfOk result (λ piece. piece.count ≡ count) }
        ensures node { IfOk result (λ piece. piece.node ≡ node) }
    {
        let node = Arc::new(alloc, node)?;
        Ok(Piece { count, node })
    }
}

impl<N> Piece<N> {
    pub(crate) fn count(&self) -> usize
        ensures { result ≡ self.now.count }
    {
        self.count
    }

    pub(crate) fn node(&self) -> &N
        ensures { result.now ≡ self.now.node }
    {
        &self.node
    }

    fn share(&self) -> Result<Piece<N>, NoMemory>
        ensures { IfOk result (λ share. share ≡ self.now) }
    {
        let count = self.count;
        let node = Arc::try_clone(&self.node)?;
        Ok(Piece { count, node })
    }
}

/// The same pieces, each with one owner more, and room for one piece more.
pub(crate) fn share_pieces<N: Drop>(
    alloc: Global,
    pieces: &[Piece<N>],
) -> Result<Vec<Piece<N>>, NoMemory>
    ensures { IfOk result (λ shares. shares.items ≡ pieces.now) }
{
    let mut shares = Vec::with_capacity(alloc, pieces.len())?;
    for piece in pieces {
        shares.push(piece.share()?)?;
    }
    Ok(shares)
}

/// How many rows pieces have.
pub(crate) fn count_in<N>(pieces: &[Piece<N>]) -> usize
    requires { count_in pieces.now < 2 ^ 64 }
    ensures { result ≡ count_in pieces.now }
{
    let mut count = 0;
    for piece in pieces {
        count += piece.count();
    }
    count
}

/// A place: the piece that it is in, and where it is there.
#[derive(Clone, Copy)]
pub(crate) struct Spot {
    pub(crate) index: usize,
    pub(crate) offset: usize,
}

/// Finds a place by the counts. The end is in the last piece.
pub(crate) fn find<N>(pieces: &[Piece<N>], at: usize) -> Spot
    requires some { 0 < length pieces.now }
    requires within { at ≤ count_in pieces.now }
    ensures { IsSpot pieces.now at result.index result.offset }
{
    let last = pieces.len() - 1;
    let mut index = 0;
    let mut offset = at;
    while index < last {
        let count = pieces[index].count();
        if offset < count {
            return Spot { index, offset };
        }
        offset -= count;
        index += 1;
    }
    Spot { index, offset }
}
