//! Which numbers are reached from others along edges.

ghost use Rattle.std.specs.Prelude.{
  ◌==◌,
  false,
  ◌≡◌,
  ◌<◌,
  ◌≤◌,
  ◌+◌,
  ◌*◌,
  ◌||◌,
  ◌&&◌,
  ◌↔◌,
  ℕ,
  not,
  length,
  IfOk,
  OnOk,
  IsTrue,
};
ghost use Rattle.gql_scope.specs.Graph.{is_in, is_marked, targets_at, AreBelow, AllBelow, unmarked, Reaches, HasCycle};

use scalar_val::{List, NoMemory};
use std::alloc::Global;

/// Marks a target, which waits then if it was not marked before.
fn mark(marks: &mut Vec<bool>, waiting: &mut Vec<usize>, target: usize) -> Result<(), NoMemory>
    requires { target < length marks.old.items }
    ensures len { length marks.new.items ≡ length marks.old.items }
    ensures marked { OnOk result ((k : ℕ) → is_marked marks.new.items k
        ≡ (is_marked marks.old.items k || (k == target))) }
    ensures waits { OnOk result ((k : ℕ) → is_in k waiting.new.items
        ≡ (is_in k waiting.old.items || (not (is_marked marks.old.items k) && (k == target)))) }
    ensures left { OnOk result (2 * unmarked marks.new.items + length waiting.new.items ≤ 2 * unmarked marks.old.items
        + length waiting.old.items) }
{
    if marks[target] {
        return Ok(());
    }
    waiting.push(target)?;
    marks[target] = true;
    Ok(())
}

fn mark_all(
    marks: &mut Vec<bool>,
    waiting: &mut Vec<usize>,
    targets: &[usize],
) -> Result<(), NoMemory>
    requires { AreBelow (length marks.old.items) targets.now }
    ensures len { length marks.new.items ≡ length marks.old.items }
    ensures marked { OnOk result ((k : ℕ) → is_marked marks.new.items k
        ≡ (is_marked marks.old.items k || is_in k targets.now)) }
    ensures waits { OnOk result ((k : ℕ) → is_in k waiting.new.items
        ≡ (is_in k waiting.old.items || (not (is_marked marks.old.items k) && is_in k targets.now))) }
    ensures left { OnOk result (2 * unmarked marks.new.items + length waiting.new.items ≤ 2 * unmarked marks.old.items
        + length waiting.old.items) }
{
    for target in targets {
        mark(marks, waiting, *target)?;
    }
    Ok(())
}

/// So many that aren't marked.
fn no_marks(alloc: Global, edges: &[List<usize>]) -> Result<Vec<bool>, NoMemory>
    ensures len { IfOk result (λ marks. length marks.items ≡ length edges.now) }
    ensures none { IfOk result (λ marks. (k : ℕ) → is_marked marks.items k ≡ false) }
{
    let mut marks = Vec::new(alloc);
    for edge in edges {
        let _ = edge;
        marks.push(false)?;
    }
    Ok(marks)
}

/// The targets of the edges that begin at a number.
fn targets_at(edges: &[List<usize>], at: usize) -> &[usize]
    ensures { result.now ≡ targets_at edges.now at }
{
    match edges.get(at) {
        Some(targets) => targets.as_slice(),
        None => &[],
    }
}

/// Marks what is reached from the start: the start itself, and what an edge from something reached leads to.
pub fn reached(alloc: Global, edges: &[List<usize>], start: &[usize]) -> Result<Vec<bool>, NoMemory>
    requires start { AreBelow (length edges.now) start.now }
    requires edges { AllBelow (length edges.now) edges.now }
    ensures len { IfOk result (λ marks. length marks.items ≡ length edges.now) }
    ensures marked { IfOk result (λ marks. (k : ℕ) → IsTrue (is_marked marks.items k) ↔ Reaches edges.now start.now k) }
{
    let mut marks = no_marks(alloc, edges)?;
    let mut waiting = Vec::new(alloc);
    mark_all(&mut marks, &mut waiting, start)?;
    while let Some(next) = waiting.pop() {
        mark_all(&mut marks, &mut waiting, targets_at(edges, next))?;
    }
    Ok(marks)
}

/// Whether some marked one reaches itself.
pub fn has_cycle(alloc: Global, edges: &[List<usize>], marks: &[bool]) -> Result<bool, NoMemory>
    requires len { length marks.now ≡ length edges.now }
    requires edges { AllBelow (length edges.now) edges.now }
    ensures { IfOk result (λ found. IsTrue found ↔ HasCycle edges.now marks.now) }
{
    for (index, targets) in edges.iter().enumerate() {
        if marks[index] && reached(alloc, edges, targets.as_slice())?[index] {
            return Ok(true);
        }
    }
    Ok(false)
}
