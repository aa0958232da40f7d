//! How equality pairs compare: by property, by bytes, and then by value.
ghost use Rattle.std.specs.Prelude.{◌≡◌, ◌↔◌, IsTrue, refl};
ghost use Rattle.std.specs.Cmp.{eq_by_cmp_equiv, partial_equiv_from_equiv, partial_order_from_total};
ghost use Rattle.std.specs.Ordering.{eq_by_cmp, as_partial_cmp};
ghost use Rattle.ds_query.specs.Branching.{pair_cmp};
ghost use Rattle.ds_query.specs.PairOrderLaws.{pair_cmp-total};

use crate::branch::Pair;
use std::cmp::Ordering;

impl PartialEq for Pair {
    ghost eq = { eq_by_cmp pair_cmp };

    ghost laws = { partial_equiv_from_equiv (eq_by_cmp_equiv pair_cmp-total) };

    fn eq(&self, other: &Pair) -> bool
        ensures value { result ≡ eq_by_cmp pair_cmp self.now other.now }
        ensures same { IsTrue result ↔ (self.now ≡ other.now) }
    {
        self.cmp(other) == Ordering::Equal
    }
}

impl Eq for Pair {
    ghost laws = { eq_by_cmp_equiv pair_cmp-total };
}

impl PartialOrd for Pair {
    ghost partial_cmp = { as_partial_cmp pair_cmp };

    ghost laws = { partial_order_from_total pair_cmp-total };

    fn partial_cmp(&self, other: &Pair) -> Option<Ordering> {
        Some(self.cmp(other))
    }
}

impl Ord for Pair {
    ghost cmp = { pair_cmp };

    ghost total = { pair_cmp-total };

    ghost matches_partial_cmp = { λ _ _. refl };

    ghost matches_eq = { λ _ _. refl };

    /// The order of pairs: by property, and then by value. It takes no memory.
    fn cmp(&self, other: &Pair) -> Ordering
        ensures value { result ≡ pair_cmp self.now other.now }
        ensures same { (result ≡ Ordering.Equal) ↔ (self.now ≡ other.now) }
    {
        compare_pairs(self, other)
    }
}

fn compare_pairs(a: &Pair, b: &Pair) -> Ordering
    ensures { result ≡ pair_cmp a.now b.now }
{
    a.property
        .cmp(&b.property)
        .then_with(|| a.value.cmp(&b.value))
}
