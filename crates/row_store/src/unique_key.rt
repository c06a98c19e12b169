ghost use Rattle.std.specs.Prelude.{◌≡◌, Some, refl};
ghost use Rattle.std.specs.Ordering.{eq_by_cmp};
ghost use Rattle.std.specs.Cmp;
ghost use Rattle.std.specs.Cmp.{eq_by_cmp_equiv, partial_order_from_agreeing_total};
ghost use Rattle.row_store.specs.UniqueKeys.{key_order, key_order-total};

use scalar_val::{Val, cmp};
use std::cmp::Ordering;

/// A value in a column. Keys are ordered by their columns, and within a column by the order of values.
#[derive(Drop)]
pub(crate) struct UniqueKey {
    pub(crate) column: u32,
    pub(crate) value: Val,
}

fn compare(a: &UniqueKey, b: &UniqueKey) -> Ordering
    ensures { result ≡ key_order a.now b.now }
{
    a.column.cmp(&b.column).then(cmp(&a.value, &b.value))
}

impl PartialEq for UniqueKey {
    ghost eq = { eq_by_cmp key_order };

    ghost laws = { Cmp.partial_equiv_from_equiv (eq_by_cmp_equiv key_order-total) };

    fn eq(&self, other: &UniqueKey) -> bool {
        match compare(self, other) {
            Ordering::Equal => true,
            _ => false,
        }
    }
}

impl Eq for UniqueKey {
    ghost laws = { eq_by_cmp_equiv key_order-total };
}

impl PartialOrd for UniqueKey {
    ghost partial_cmp = { λ x y. Some (key_order x y) };

    ghost laws = { partial_order_from_agreeing_total key_order key_order-total (λ x y. refl) (λ x y. refl) };

    fn partial_cmp(&self, other: &UniqueKey) -> Option<Ordering> {
        Some(compare(self, other))
    }
}

impl Ord for UniqueKey {
    ghost cmp = { key_order };

    ghost total = { key_order-total };

    ghost matches_partial_cmp = { λ x y. refl };

    ghost matches_eq = { λ x y. refl };

    fn cmp(&self, other: &UniqueKey) -> Ordering {
        compare(self, other)
    }
}
