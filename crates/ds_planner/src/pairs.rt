//! Lists of pairs: which properties and which pairs are among them.
ghost use Rattle.std.specs.Prelude.{◌≡◌, ◌&&◌, not, List, ℕ};
ghost use Rattle.std.specs.List.{list_all};
ghost use Rattle.ds_query.specs.Lawful.{has_pair};
ghost use Rattle.ds_planner.specs.Suits.{chooses, properties_differ};

use ds_base::TextString;
use ds_query::Pair;

/// Whether one of the pairs is on the property.
pub(crate) fn has_pair(pairs: &[Pair], name: &TextString) -> bool
    ensures { result ≡ has_pair pairs.now name.now }
{
    pairs.iter().any(|pair| *name == pair.property)
}

/// Whether the pair is one of these.
pub(crate) fn chooses(pairs: &[Pair], pair: &Pair) -> bool
    ensures { result ≡ chooses pairs.now pair.now }
{
    pairs.iter().any(|chosen| *pair == *chosen)
}

/// Whether each of the pairs is one of the others.
pub(crate) fn are_among(pairs: &[Pair], others: &[Pair]) -> bool
    ensures { result ≡ list_all (chooses others.now) pairs.now }
{
    pairs.iter().all(|pair| chooses(others, pair))
}

/// Whether no two pairs are on one property.
pub(crate) fn properties_differ(pairs: &[Pair]) -> bool
    ensures { result ≡ properties_differ pairs.now }
{
    for (i, pair) in pairs.iter().enumerate() {
        if has_pair(&pairs[i + 1..], &pair.property) {
            return false;
        }
    }
    true
}
