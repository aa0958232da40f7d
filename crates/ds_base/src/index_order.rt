//! How index values compare, with the laws of a total order.
ghost use Rattle.std.specs.Prelude.{◌≡◌, ◌↔◌, IsTrue, refl};
ghost use Rattle.std.specs.Cmp.{eq_by_cmp_equiv, partial_equiv_from_equiv, partial_order_from_total};
ghost use Rattle.std.specs.Ordering.{eq_by_cmp, as_partial_cmp};
ghost use Rattle.ds_base.specs.IndexOrder.{index_value_cmp, class_of};
ghost use Rattle.ds_base.specs.IndexOrderLaws.{index_value_cmp-total};

use crate::index_value::IndexValue;
use std::cmp::Ordering;

impl PartialEq for IndexValue {
    ghost eq = { eq_by_cmp index_value_cmp };

    ghost laws = { partial_equiv_from_equiv (eq_by_cmp_equiv index_value_cmp-total) };

    fn eq(&self, other: &IndexValue) -> bool
        ensures value { result ≡ eq_by_cmp index_value_cmp self.now other.now }
        ensures same { IsTrue result ↔ (self.now ≡ other.now) }
    {
        self.cmp(other) == Ordering::Equal
    }
}

impl Eq for IndexValue {
    ghost laws = { eq_by_cmp_equiv index_value_cmp-total };
}

impl PartialOrd for IndexValue {
    ghost partial_cmp = { as_partial_cmp index_value_cmp };

    ghost laws = { partial_order_from_total index_value_cmp-total };

    fn partial_cmp(&self, other: &IndexValue) -> Option<Ordering> {
        Some(self.cmp(other))
    }
}

impl Ord for IndexValue {
    ghost cmp = { index_value_cmp };

    ghost total = { index_value_cmp-total };

    ghost matches_partial_cmp = { λ _ _. refl };

    ghost matches_eq = { λ _ _. refl };

    /// The order of index values: by class, and inside a class numerically, `false` before `true`, by bytes, or as keys
    /// compare. It takes no memory.
    fn cmp(&self, other: &IndexValue) -> Ordering
        ensures value { result ≡ index_value_cmp self.now other.now }
        ensures same { (result ≡ Ordering.Equal) ↔ (self.now ≡ other.now) }
    {
        compare_values(self, other)
    }
}

fn compare_values(a: &IndexValue, b: &IndexValue) -> Ordering
    ensures { result ≡ index_value_cmp a.now b.now }
{
    match (a, b) {
        (IndexValue::Num(m), IndexValue::Num(n)) => m.cmp(n),
        (IndexValue::Bool(m), IndexValue::Bool(n)) => m.cmp(n),
        (IndexValue::Bytes(m), IndexValue::Bytes(n)) => m.cmp(n),
        (IndexValue::Key(m), IndexValue::Key(n)) => m.cmp(n),
        _ => class_of(a).cmp(&class_of(b)),
    }
}

/// The place of the value's class.
fn class_of(value: &IndexValue) -> u8
    ensures { result ≡ class_of value.now }
{
    match value {
        IndexValue::Null => 0,
        IndexValue::Num(_) => 1,
        IndexValue::Bool(_) => 2,
        IndexValue::Bytes(_) => 3,
        IndexValue::Key(_) => 4,
    }
}
