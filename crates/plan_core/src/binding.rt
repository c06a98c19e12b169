ghost use Rattle.std.specs.Prelude.{◌≡◌, take, IfOk, IfErr};

use plan_model::{Binding, Slot, SlotList, ValList};
use scalar_val::{NoMemory, Val, copy_val};
use std::alloc::Global;

fn copy_vals(alloc: Global, vals: &ValList) -> Result<ValList, NoMemory>
    ensures { IfOk result (λ copy. copy ≡ vals.now) }
{
    let mut copy = ValList::new(alloc);
    for val in vals.as_slice() {
        copy.push(copy_val(alloc, val)?).map_err(|_| NoMemory)?;
    }
    Ok(copy)
}

/// An equal slot.
pub fn copy_slot(alloc: Global, slot: &Slot) -> Result<Slot, NoMemory>
    ensures { IfOk result (λ copy. copy ≡ slot.now) }
{
    match slot {
        Slot::One(val) => Ok(Slot::One(copy_val(alloc, val)?)),
        Slot::Many(vals) => Ok(Slot::Many(copy_vals(alloc, vals)?)),
    }
}

fn copy_slots(alloc: Global, slots: &SlotList) -> Result<SlotList, NoMemory>
    ensures { IfOk result (λ copy. copy ≡ slots.now) }
{
    let mut copy = SlotList::new(alloc);
    for slot in slots.as_slice() {
        copy.push(copy_slot(alloc, slot)?).map_err(|_| NoMemory)?;
    }
    Ok(copy)
}

/// An equal binding.
pub fn copy_binding(alloc: Global, binding: &Binding) -> Result<Binding, NoMemory>
    ensures { IfOk result (λ copy. copy ≡ binding.now) }
{
    let vars = copy_slots(alloc, &binding.vars)?;
    let session = copy_vals(alloc, &binding.session)?;
    let cursor = copy_val(alloc, &binding.cursor)?;
    Ok(Binding {
        vars,
        session,
        cursor,
    })
}
