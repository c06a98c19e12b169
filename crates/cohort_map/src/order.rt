ghost use Rattle.std.specs.Prelude.{◌≡◌, ◌↔◌, true, Some, refl, IfOk};
ghost use Rattle.std.specs.Ordering.{eq_by_cmp, nat_cmp};
ghost use Rattle.std.specs.Cmp;
ghost use Rattle.std.specs.Cmp.{eq_by_cmp_equiv, partial_order_from_agreeing_total};
ghost use Rattle.std.specs.Cmp.Lexicographic.{slice_cmp};
ghost use Rattle.scalar_val.specs.ValOrder.{val_cmp};
ghost use Rattle.cohort_map.specs.Keys.{word_rank, poller_cmp, slot_cmp, binding_cmp, key_cmp, same_poller, same_binding};
ghost use Rattle.cohort_map.specs.KeyOrder.{poller_cmp-total, key_cmp-total};

use crate::key::{CohortKey, PollerKey};
use plan_core::{Binding, Slot, copy_binding};
use scalar_val::{NoMemory, Str, Val, Word, cmp};
use std::alloc::Global;
use std::cmp::Ordering;

fn rank_of_word(word: Word) -> u8
    ensures { result ≡ word_rank word }
{
    match word {
        Word::Query => 0,
        Word::Subscription => 1,
    }
}

fn compare_texts(a: &str, b: &str) -> Ordering
    ensures { result ≡ slice_cmp nat_cmp a.now b.now }
{
    a.cmp(b)
}

fn compare_pollers(a: &PollerKey, b: &PollerKey) -> Ordering
    ensures { result ≡ poller_cmp a.now b.now }
{
    match rank_of_word(a.word).cmp(&rank_of_word(b.word)) {
        Ordering::Equal => {}
        order => return order,
    }
    match compare_texts(a.role.as_str(), b.role.as_str()) {
        Ordering::Equal => compare_texts(a.canon.as_str(), b.canon.as_str()),
        order => order,
    }
}

pub(crate) fn is_same_poller(a: &PollerKey, b: &PollerKey) -> bool
    ensures { result ≡ same_poller a.now b.now }
{
    compare_pollers(a, b).is_eq()
}

/// The first difference decides; else the shorter list comes first.
fn compare_values(a: &[Val], b: &[Val]) -> Ordering
    ensures { result ≡ slice_cmp val_cmp a.now b.now }
{
    let mut rest = b;
    for value in a {
        let [other, later @ ..] = rest else {
            return Ordering::Greater;
        };
        match cmp(value, other) {
            Ordering::Equal => {}
            order => return order,
        }
        rest = later;
    }
    if rest.is_empty() {
        Ordering::Equal
    } else {
        Ordering::Less
    }
}

fn compare_slots(a: &Slot, b: &Slot) -> Ordering
    ensures { result ≡ slot_cmp a.now b.now }
{
    match (a, b) {
        (Slot::One(x), Slot::One(y)) => cmp(x, y),
        (Slot::Many(x), Slot::Many(y)) => compare_values(x.as_slice(), y.as_slice()),
        (Slot::One(_), Slot::Many(_)) => Ordering::Less,
        (Slot::Many(_), Slot::One(_)) => Ordering::Greater,
    }
}

fn compare_all_slots(a: &[Slot], b: &[Slot]) -> Ordering
    ensures { result ≡ slice_cmp slot_cmp a.now b.now }
{
    let mut rest = b;
    for slot in a {
        let [other, later @ ..] = rest else {
            return Ordering::Greater;
        };
        match compare_slots(slot, other) {
            Ordering::Equal => {}
            order => return order,
        }
        rest = later;
    }
    if rest.is_empty() {
        Ordering::Equal
    } else {
        Ordering::Less
    }
}

fn compare_bindings(a: &Binding, b: &Binding) -> Ordering
    ensures { result ≡ binding_cmp a.now b.now }
{
    match cmp(&a.cursor, &b.cursor) {
        Ordering::Equal => {}
        order => return order,
    }
    match compare_all_slots(a.vars.as_slice(), b.vars.as_slice()) {
        Ordering::Equal => compare_values(a.session.as_slice(), b.session.as_slice()),
        order => order,
    }
}

fn compare(a: &CohortKey, b: &CohortKey) -> Ordering
    ensures { result ≡ key_cmp a.now b.now }
{
    match compare_bindings(&a.binding, &b.binding) {
        Ordering::Equal => compare_pollers(&a.poller, &b.poller),
        order => order,
    }
}

impl PartialEq for CohortKey {
    ghost eq = { eq_by_cmp key_cmp };

    ghost laws = { Cmp.partial_equiv_from_equiv (eq_by_cmp_equiv key_cmp-total) };

    fn eq(&self, other: &CohortKey) -> bool {
        match compare(self, other) {
            Ordering::Equal => true,
            _ => false,
        }
    }
}

impl Eq for CohortKey {
    ghost laws = { eq_by_cmp_equiv key_cmp-total };
}

impl PartialOrd for CohortKey {
    ghost partial_cmp = { λ x y. Some (key_cmp x y) };

    ghost laws = { partial_order_from_agreeing_total key_cmp key_cmp-total (λ x y. refl) (λ x y. refl) };

    fn partial_cmp(&self, other: &CohortKey) -> Option<Ordering> {
        Some(compare(self, other))
    }
}

impl Ord for CohortKey {
    ghost cmp = { key_cmp };

    ghost total = { key_cmp-total };

    ghost matches_partial_cmp = { λ x y. refl };

    ghost matches_eq = { λ x y. refl };

    fn cmp(&self, other: &CohortKey) -> Ordering {
        compare(self, other)
    }
}

impl PartialEq for PollerKey {
    ghost eq = { eq_by_cmp poller_cmp };

    ghost laws = { Cmp.partial_equiv_from_equiv (eq_by_cmp_equiv poller_cmp-total) };

    fn eq(&self, other: &PollerKey) -> bool {
        match compare_pollers(self, other) {
            Ordering::Equal => true,
            _ => false,
        }
    }
}

impl Eq for PollerKey {
    ghost laws = { eq_by_cmp_equiv poller_cmp-total };
}

impl PartialOrd for PollerKey {
    ghost partial_cmp = { λ x y. Some (poller_cmp x y) };

    ghost laws = { partial_order_from_agreeing_total poller_cmp poller_cmp-total (λ x y. refl) (λ x y. refl) };

    fn partial_cmp(&self, other: &PollerKey) -> Option<Ordering> {
        Some(compare_pollers(self, other))
    }
}

impl Ord for PollerKey {
    ghost cmp = { poller_cmp };

    ghost total = { poller_cmp-total };

    ghost matches_partial_cmp = { λ x y. refl };

    ghost matches_eq = { λ x y. refl };

    fn cmp(&self, other: &PollerKey) -> Ordering {
        compare_pollers(self, other)
    }
}

/// An equal key of a poller.
pub(crate) fn copy_poller(alloc: Global, key: &PollerKey) -> Result<PollerKey, NoMemory>
    ensures { IfOk result (λ copy. copy ≡ key.now) }
{
    let role = Str::of(alloc, key.role.as_str())?;
    let canon = Str::of(alloc, key.canon.as_str())?;
    Ok(PollerKey {
        word: key.word,
        role,
        canon,
    })
}

/// An equal key.
pub(crate) fn copy_key(alloc: Global, key: &CohortKey) -> Result<CohortKey, NoMemory>
    ensures { IfOk result (λ copy. copy ≡ key.now) }
{
    let poller = copy_poller(alloc, &key.poller)?;
    let binding = copy_binding(alloc, &key.binding)?;
    Ok(CohortKey { poller, binding })
}

/// Keys of pollers and bindings count as the same exactly where they are equal.
pub fn cohort_laws()
    ensures pollers { (a b : PollerKey) → (same_poller a b ≡ true) ↔ (a ≡ b) }
    ensures bindings { (a b : Binding) → (same_binding a b ≡ true) ↔ (a ≡ b) }
{}
