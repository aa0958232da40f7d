//! Sets of names, so that thousands of filters, orders and names are compared in order and not each with each.
ghost use Rattle.std.specs.Prelude.{◌≡◌, ◌||◌, not, bytes_eq, List, ℕ, map, OnOk, OnErr, IfOk, [], false};
ghost use Rattle.ds_query.specs.Reasons.{has_name};

use ds_base::TextString;
use std::alloc::{AllocError, Global};
use std::collections::BTreeSet;
use std::marker::Model;

/// Some names, each once. It borrows them from the query.
#[derive(Drop)]
pub(crate) struct NameSet<'a> {
    names: BTreeSet<&'a str>,
}

impl<'a> Model for NameSet<'a> {
    ghost use Rattle.std.specs.Prelude.{List, ℕ, map};

    ghost Value = { List (List ℕ) };

    ghost view = { λ s. map (λ n. n.now) s.names.keys };
}

impl<'a> NameSet<'a> {
    /// No name. It takes no memory.
    pub(crate) fn new(alloc: Global) -> NameSet<'a>
        ensures { result ≡ [] }
    {
        NameSet {
            names: BTreeSet::new(alloc),
        }
    }

    /// Whether the name is there.
    pub(crate) fn contains(&self, name: &str) -> bool
        ensures { result ≡ has_name self.now name.now }
    {
        self.names.contains(name)
    }

    /// Puts the name among them, and says whether it is new.
    pub(crate) fn insert(&mut self, name: &'a str) -> Result<bool, AllocError>
        ensures new { IfOk result (λ added. added ≡ not (has_name self.old name.now)) }
        ensures ok { OnOk result ((n : List ℕ) → has_name self.new n
            ≡ (bytes_eq n name.now || has_name self.old n)) }
    {
        let added = self.names.insert(name)?;
        Ok(added)
    }
}
