//! How keys compare, are equal and are hashed, with the laws of a total order.
//!
//! Two identifiers, elements or keys are equal exactly where they compare as equal, and then they are the same.
ghost use Rattle.std.specs.Prelude.{◌≡◌, ◌↔◌, IsTrue, Some, fold, refl};
ghost use Rattle.std.specs.Cmp.{eq_by_cmp_equiv, partial_equiv_from_equiv, partial_order_from_total};
ghost use Rattle.std.specs.Ordering.{eq_by_cmp, as_partial_cmp};
ghost use Rattle.ds_base.specs.KeyOrder.{ident_cmp, elem_cmp, key_cmp, same_key};
ghost use Rattle.ds_base.specs.KeyHash.{ident_writes, elem_writes, key_writes, ident-alike, elem-alike, key-alike};
ghost use Rattle.ds_base.specs.KeyOrderLaws.{ident_cmp-total, elem_cmp-total, key_cmp-total};

use crate::key::{Elem, Ident, Key};
use std::cmp::Ordering;
use std::hash::{Hash, Hasher};

impl PartialEq for Ident {
    ghost eq = { eq_by_cmp ident_cmp };

    ghost laws = { partial_equiv_from_equiv (eq_by_cmp_equiv ident_cmp-total) };

    fn eq(&self, other: &Ident) -> bool {
        self.cmp(other) == Ordering::Equal
    }
}

impl Eq for Ident {
    ghost laws = { eq_by_cmp_equiv ident_cmp-total };
}

impl PartialOrd for Ident {
    ghost partial_cmp = { as_partial_cmp ident_cmp };

    ghost laws = { partial_order_from_total ident_cmp-total };

    fn partial_cmp(&self, other: &Ident) -> Option<Ordering> {
        Some(self.cmp(other))
    }
}

impl Ord for Ident {
    ghost cmp = { ident_cmp };

    ghost total = { ident_cmp-total };

    ghost matches_partial_cmp = { λ _ _. refl };

    ghost matches_eq = { λ _ _. refl };

    fn cmp(&self, other: &Ident) -> Ordering {
        match (self, other) {
            (Ident::Id(a), Ident::Id(b)) => a.cmp(b),
            (Ident::Id(_), Ident::Name(_)) => Ordering::Less,
            (Ident::Name(_), Ident::Id(_)) => Ordering::Greater,
            (Ident::Name(a), Ident::Name(b)) => a.cmp(b),
        }
    }
}

impl PartialEq for Elem {
    ghost eq = { eq_by_cmp elem_cmp };

    ghost laws = { partial_equiv_from_equiv (eq_by_cmp_equiv elem_cmp-total) };

    fn eq(&self, other: &Elem) -> bool {
        self.cmp(other) == Ordering::Equal
    }
}

impl Eq for Elem {
    ghost laws = { eq_by_cmp_equiv elem_cmp-total };
}

impl PartialOrd for Elem {
    ghost partial_cmp = { as_partial_cmp elem_cmp };

    ghost laws = { partial_order_from_total elem_cmp-total };

    fn partial_cmp(&self, other: &Elem) -> Option<Ordering> {
        Some(self.cmp(other))
    }
}

impl Ord for Elem {
    ghost cmp = { elem_cmp };

    ghost total = { elem_cmp-total };

    ghost matches_partial_cmp = { λ _ _. refl };

    ghost matches_eq = { λ _ _. refl };

    fn cmp(&self, other: &Elem) -> Ordering {
        self.kind
            .cmp(&other.kind)
            .then_with(|| self.ident.cmp(&other.ident))
    }
}

impl PartialEq for Key {
    ghost eq = { eq_by_cmp key_cmp };

    ghost laws = { partial_equiv_from_equiv (eq_by_cmp_equiv key_cmp-total) };

    fn eq(&self, other: &Key) -> bool
        ensures value { result ≡ same_key self.now other.now }
        ensures same { IsTrue result ↔ (self.now ≡ other.now) }
    {
        self.cmp(other) == Ordering::Equal
    }
}

impl Eq for Key {
    ghost laws = { eq_by_cmp_equiv key_cmp-total };
}

impl PartialOrd for Key {
    ghost partial_cmp = { as_partial_cmp key_cmp };

    ghost laws = { partial_order_from_total key_cmp-total };

    fn partial_cmp(&self, other: &Key) -> Option<Ordering> {
        Some(self.cmp(other))
    }
}

impl Ord for Key {
    ghost cmp = { key_cmp };

    ghost total = { key_cmp-total };

    ghost matches_partial_cmp = { λ _ _. refl };

    ghost matches_eq = { λ _ _. refl };

    /// The order of keys: by namespace, then element by element. It takes no memory, and one pass.
    fn cmp(&self, other: &Key) -> Ordering
        ensures value { result ≡ key_cmp self.now other.now }
        ensures same { (result ≡ Ordering.Equal) ↔ (self.now ≡ other.now) }
    {
        compare_keys(self, other)
    }
}

fn compare_keys(a: &Key, b: &Key) -> Ordering
    ensures { result ≡ key_cmp a.now b.now }
{
    a.namespace()
        .cmp(b.namespace())
        .then_with(|| a.elems().as_slice().cmp(b.elems().as_slice()))
}

impl Hash for Ident {
    ghost hash_input = { ident_writes };

    ghost respects_eq = { ident-alike };

    /// Feeds a byte that tells ids from names, and then the one or the other.
    fn hash<H: Hasher>(&self, state: &mut H)
        ensures { state.new ≡ fold H.write state.old (ident_writes self.now) }
    {
        match self {
            Ident::Id(id) => {
                state.write_u8(0);
                id.hash(state);
            }
            Ident::Name(name) => {
                state.write_u8(1);
                name.hash(state);
            }
        }
    }
}

impl Hash for Elem {
    ghost hash_input = { elem_writes };

    ghost respects_eq = { elem-alike };

    /// Feeds the kind, and then the identifier.
    fn hash<H: Hasher>(&self, state: &mut H)
        ensures { state.new ≡ fold H.write state.old (elem_writes self.now) }
    {
        self.kind.hash(state);
        self.ident.hash(state);
    }
}

impl Hash for Key {
    ghost hash_input = { key_writes };

    ghost respects_eq = { key-alike };

    /// Feeds the namespace, how many elements there are, and each of them.
    fn hash<H: Hasher>(&self, state: &mut H)
        ensures { state.new ≡ fold H.write state.old (key_writes self.now) }
    {
        self.namespace().hash(state);
        self.elems().as_slice().hash(state);
    }
}
