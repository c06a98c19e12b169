use crate::Relation;
use plan_core::{Binding, SlotList, ValList};
use scalar_val::{NoMemory, Val};
use std::alloc::Global;
use std::test::Fail;

fn binding(alloc: Global, cursor: i32) -> Binding {
    Binding {
        vars: SlotList::new(alloc),
        session: ValList::new(alloc),
        cursor: Val::Int(cursor),
    }
}

fn push(relation: &mut Relation, binding: Binding) -> Result<u32, NoMemory> {
    if relation.len() >= 100 {
        return Err(NoMemory);
    }
    match relation.push(binding) {
        Ok(id) => Ok(id),
        Err(_back) => Err(NoMemory),
    }
}

/// Whether the row at a place has this id and this cursor.
fn holds_at(relation: &Relation, at: usize, id: u32, cursor: i32) -> bool {
    match relation.get(at) {
        Some(row) => row.id == id
            && matches!(row.binding.cursor, Val::Int(found) if found == cursor),
        None => false,
    }
}

#[test]
fn ids_are_given_from_one_in_order(rt: HostRuntime) -> Result<(), Fail> {
    let alloc = rt.alloc();
    let mut relation = Relation::new(alloc);
    assert!(rt; push(&mut relation, binding(alloc, 7))? == 1);
    for cursor in [3, 7] {
        push(&mut relation, binding(alloc, cursor))?;
    }
    assert!(rt; holds_at(&relation, 0, 1, 7));
    assert!(rt; holds_at(&relation, 1, 2, 3));
    assert!(rt; holds_at(&relation, 2, 3, 7));
    assert!(rt; relation.get(3).is_none());
    Ok(())
}
