//! Session variables that filters name, by names that stand in the metadata.

ghost use Rattle.std.specs.Prelude.{◌≡◌, Some, IfOk, map, refl};
ghost use Rattle.std.specs.Ordering.{eq_by_cmp};
ghost use Rattle.std.specs.Cmp;
ghost use Rattle.std.specs.Cmp.{eq_by_cmp_equiv, partial_order_from_agreeing_total};
ghost use Rattle.scalar_val.specs.Values.{kind_rank};
ghost use Rattle.selection_plan.specs.SlotRefs.{slot_said, ref_cmp, ref_cmp-total};

use query_model::{SessionSlot, SessionSlotList};
use scalar_val::{Kind, NoMemory, Str};
use std::alloc::Global;
use std::cmp::Ordering;
use std::collections::BTreeSet;

/// A session variable that a filter names, and the kind that is wanted of it. The order is that of names in bytes, and
/// then of kinds.
#[derive(Clone, Copy)]
pub(crate) struct SlotRef<'a> {
    pub(crate) name: &'a str,
    pub(crate) kind: Kind,
}

fn kind_rank(kind: Kind) -> u8
    ensures { result ≡ kind_rank kind }
{
    match kind {
        Kind::Bool => 0,
        Kind::Int => 1,
        Kind::Big => 2,
        Kind::Text => 3,
        Kind::Uuid => 4,
    }
}

fn compare(a: &SlotRef<'_>, b: &SlotRef<'_>) -> Ordering
    ensures { result ≡ ref_cmp a.now b.now }
{
    let names = a.name.as_bytes().cmp(b.name.as_bytes());
    names.then(kind_rank(a.kind).cmp(&kind_rank(b.kind)))
}

impl<'a> PartialEq for SlotRef<'a> {
    ghost eq = { eq_by_cmp ref_cmp };

    ghost laws = { Cmp.partial_equiv_from_equiv (eq_by_cmp_equiv ref_cmp-total) };

    fn eq(&self, other: &SlotRef<'a>) -> bool {
        match compare(self, other) {
            Ordering::Equal => true,
            _ => false,
        }
    }
}

impl<'a> Eq for SlotRef<'a> {
    ghost laws = { eq_by_cmp_equiv ref_cmp-total };
}

impl<'a> PartialOrd for SlotRef<'a> {
    ghost partial_cmp = { λ x y. Some (ref_cmp x y) };

    ghost laws = { partial_order_from_agreeing_total ref_cmp ref_cmp-total (λ x y. refl) (λ x y. refl) };

    fn partial_cmp(&self, other: &SlotRef<'a>) -> Option<Ordering> {
        Some(compare(self, other))
    }
}

impl<'a> Ord for SlotRef<'a> {
    ghost cmp = { ref_cmp };

    ghost total = { ref_cmp-total };

    ghost matches_partial_cmp = { λ x y. refl };

    ghost matches_eq = { λ x y. refl };

    fn cmp(&self, other: &SlotRef<'a>) -> Ordering {
        compare(self, other)
    }
}

/// The session variables in order, with names of their own.
pub(crate) fn owned_slots(
    alloc: Global,
    slots: &BTreeSet<SlotRef<'_>>,
) -> Result<SessionSlotList, NoMemory>
    ensures { IfOk result (λ list. list ≡ map slot_said slots.now.keys) }
{
    let mut list = SessionSlotList::new(alloc);
    for slot in slots {
        let name = Str::of(alloc, slot.name)?;
        list.add(SessionSlot {
            name,
            kind: slot.kind,
        })?;
    }
    Ok(list)
}
