//! How marks compare: by key, and then value by value.
ghost use Rattle.std.specs.Prelude.{◌≡◌, ◌↔◌, IsTrue, refl};
ghost use Rattle.std.specs.Cmp.{eq_by_cmp_equiv, partial_equiv_from_equiv, partial_order_from_total};
ghost use Rattle.std.specs.Ordering.{eq_by_cmp, as_partial_cmp};
ghost use Rattle.ds_pages.specs.Marks.{mark_cmp, mark_cmp-total};

use crate::marks::Mark;
use std::cmp::Ordering;

impl PartialEq for Mark {
    ghost eq = { eq_by_cmp mark_cmp };

    ghost laws = { partial_equiv_from_equiv (eq_by_cmp_equiv mark_cmp-total) };

    fn eq(&self, other: &Mark) -> bool
        ensures { result ≡ eq_by_cmp mark_cmp self.now other.now }
    {
        self.cmp(other) == Ordering::Equal
    }
}

impl Eq for Mark {
    ghost laws = { eq_by_cmp_equiv mark_cmp-total };
}

impl PartialOrd for Mark {
    ghost partial_cmp = { as_partial_cmp mark_cmp };

    ghost laws = { partial_order_from_total mark_cmp-total };

    fn partial_cmp(&self, other: &Mark) -> Option<Ordering> {
        Some(self.cmp(other))
    }
}

impl Ord for Mark {
    ghost cmp = { mark_cmp };

    ghost total = { mark_cmp-total };

    ghost matches_partial_cmp = { λ _ _. refl };

    ghost matches_eq = { λ _ _. refl };

    /// The order of marks: by key, and then value by value. It takes no memory.
    fn cmp(&self, other: &Mark) -> Ordering
        ensures { result ≡ mark_cmp self.now other.now }
    {
        compare_marks(self, other)
    }
}

fn compare_marks(a: &Mark, b: &Mark) -> Ordering
    ensures { result ≡ mark_cmp a.now b.now }
{
    a.key
        .cmp(&b.key)
        .then_with(|| a.values.as_slice().cmp(b.values.as_slice()))
}
