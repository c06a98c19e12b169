//! Rows that are chained by the slots of their values in a column.
ghost use Rattle.std.specs.Prelude.{◌≡◌, ◌<◌, replicate, IfOk};
ghost use Rattle.std.specs.List.{fold};
ghost use Rattle.scalar_val.specs.Values.{cell};
ghost use Rattle.row_lookup.specs.Chaining.{hash_of, slot_of, mixed, Chained};

use row_store::Row;
use scalar_val::{NoMemory, Val, cell};
use std::alloc::Global;

/// From the first row with a slot on, each row leads to the next one with the same slot; the end is past all rows.
#[derive(Drop)]
pub(crate) struct Chains {
    pub(crate) column: u32,
    pub(crate) heads: Vec<usize>,
    pub(crate) next: Vec<usize>,
}

fn hash_text(bytes: &[u8]) -> u64
    ensures { result ≡ fold mixed 0 bytes.now }
{
    let mut hash = 0u64;
    for byte in bytes {
        hash = hash.wrapping_mul(31).wrapping_add(u64::from(*byte));
    }
    hash
}

fn hash(value: &Val) -> u64
    ensures { result ≡ hash_of value.now }
{
    match value {
        Val::Null => 0,
        Val::Bool(truth) => u64::from(*truth),
        Val::Int(number) => u64::from(number.unsigned_abs()),
        Val::Big(number) => number.unsigned_abs(),
        Val::Text(text) => hash_text(text.as_str().as_bytes()),
        Val::Uuid(number) => (*number % 0x1_0000_0000_0000_0000) as u64,
    }
}

/// The slot of a value among so many.
pub(crate) fn slot(size: usize, value: &Val) -> usize
    requires { 0 < size }
    ensures value { result ≡ slot_of size value.now }
    ensures within { result < size }
{
    (hash(value) % size as u64) as usize
}

fn all_the_end(alloc: Global, size: usize, end: usize) -> Result<Vec<usize>, NoMemory>
    ensures { IfOk result (λ list. list.items ≡ replicate size end) }
{
    Ok(vec![in alloc; end; size]?)
}

fn slot_of_row(size: usize, column: u32, row: &Row) -> usize
    requires { 0 < size }
    ensures value { result ≡ slot_of size (cell row.now column) }
    ensures within { result < size }
{
    let null = Val::Null;
    slot(size, cell(row.cells(), column, &null))
}

/// The chains of the rows in a column.
pub(crate) fn chained(alloc: Global, column: u32, rows: &[Row]) -> Result<Chains, NoMemory>
    ensures { IfOk result (λ c. Chained c.column rows.now c.heads.items c.next.items) }
{
    let size = rows.len() / 2 * 2 + 1;
    let mut heads = all_the_end(alloc, size, rows.len())?;
    let mut next = all_the_end(alloc, rows.len(), rows.len())?;
    let mut at = rows.len();
    while at > 0 {
        at -= 1;
        let head = slot_of_row(size, column, &rows[at]);
        next[at] = heads[head];
        heads[head] = at;
    }
    Ok(Chains {
        column,
        heads,
        next,
    })
}
