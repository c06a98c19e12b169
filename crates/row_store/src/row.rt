ghost use Rattle.std.specs.Prelude.{◌≡◌, ◌+◌, ◌≤◌, IfOk, take, length, slice_set};
ghost use Rattle.data_model.specs.Rows.{set_cells};

use data_model::SetCell;
use scalar_val::{List, NoMemory, Steps, Val, copy_val};
use std::alloc::Global;
use std::marker::Model;
use std::sync::ledger::Ledger;

/// A row of a table: a value for each column. It can't be cloned, and is reached by a scan or a copy alone, each of which
/// counts a step.
#[derive(Debug, Drop)]
pub struct Row {
    cells: List<Val>,
}

impl Model for Row {
    ghost use Rattle.std.specs.Prelude.{List};
    ghost use Rattle.scalar_val.specs.declared.val.Val.{Val};

    ghost Value = { List Val };

    ghost view = { λ r. r.cells };
}

impl Row {
    pub(crate) fn of(cells: List<Val>) -> Row
        ensures { result ≡ cells }
    {
        Row { cells }
    }

    /// The values, in the order of the columns.
    pub fn cells(&self) -> &[Val]
        ensures { result.now ≡ self.now }
    {
        self.cells.as_slice()
    }
}

/// An equal row. It counts one step.
pub fn copy_row<L: Ledger>(alloc: Global, row: &Row, steps: &mut Steps<L>) -> Result<Row, NoMemory>
    ensures equal { IfOk result (λ copy. copy ≡ row.now) }
    ensures step { steps.new ≡ steps.old + 1 }
{
    steps.tick();
    Ok(Row::of(copy_cells(alloc, row.cells())?))
}

/// The row with new values, copied. It counts one step.
pub(crate) fn with_cells<L: Ledger>(
    alloc: Global,
    row: &Row,
    set: &[SetCell],
    steps: &mut Steps<L>,
) -> Result<Row, NoMemory>
    ensures value { IfOk result (λ made. made ≡ set_cells set.now row.now) }
    ensures step { steps.new ≡ steps.old + 1 }
{
    let Row { mut cells } = copy_row(alloc, row, steps)?;
    for cell in set {
        let value = copy_val(alloc, &cell.value)?;
        put(&mut cells, cell.column, value);
    }
    Ok(Row::of(cells))
}

fn put(cells: &mut List<Val>, column: u32, value: Val)
    ensures { cells.new ≡ slice_set cells.old column value }
{
    let at = column as usize;
    if at < cells.len() {
        cells.set(at, value);
    }
}

pub(crate) fn copy_cells(alloc: Global, cells: &[Val]) -> Result<List<Val>, NoMemory>
    ensures { IfOk result (λ copy. copy ≡ cells.now) }
{
    let mut copy = Vec::with_capacity(alloc, cells.len())?;
    for cell in cells {
        copy.push(copy_val(alloc, cell)?)?;
    }
    Ok(List::from_vec(copy))
}

/// Equal rows, with one step for each.
pub(crate) fn copy_rows<L: Ledger>(
    alloc: Global,
    rows: &[Row],
    steps: &mut Steps<L>,
) -> Result<List<Row>, NoMemory>
    ensures equal { IfOk result (λ copy. copy ≡ rows.now) }
    ensures steps { steps.new ≤ steps.old + length rows.now }
{
    let mut copy = Vec::with_capacity(alloc, rows.len())?;
    for row in rows {
        copy.push(copy_row(alloc, row, steps)?)?;
    }
    Ok(List::from_vec(copy))
}
