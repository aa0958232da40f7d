//! Lists of distinct index definitions.
ghost use Rattle.std.specs.Prelude.{◌≡◌, [], ◌∷◌, ◌++◌, length, slice_get, OnOk, IfErr, IsFalse};
ghost use Rattle.std.specs.Option.{option_copied};
ghost use Rattle.std.specs.List.{list_any};
ghost use Rattle.ds_indexdef.specs.Definitions.{same_def, AreDefs};

use crate::IndexDef;
use ds_base::{Sequence, TryCopy};
use std::alloc::{AllocError, Global};
use std::marker::Model;

/// Distinct index definitions in their order, fewer than 2^32; the place of each, counted from 0, names it.
///
/// Contracts see it as the list.
#[derive(Drop)]
pub struct Defs {
    list: Sequence<IndexDef>,
}

impl Model for Defs {
    ghost use Rattle.std.specs.Prelude.{List};
    ghost use Rattle.ds_indexdef.specs.declared.IndexDef.{IndexDef};
    ghost use Rattle.ds_indexdef.specs.Definitions.{AreDefs};

    ghost Value = { List IndexDef };

    ghost view = { λ d. d.list };

    ghost invariant = { λ d. AreDefs d.list };
}

impl Defs {
    /// No definition. It takes no memory.
    pub fn new(alloc: Global) -> Defs
        ensures { result ≡ [] }
    {
        Defs {
            list: Sequence::new(alloc),
        }
    }

    /// How many definitions there are.
    pub fn len(&self) -> usize
        ensures count { result ≡ length self.now }
        ensures lawful { AreDefs self.now }
    {
        self.list.len()
    }

    /// The definition at place `i`, counted from 0; `None` exactly where `i` is not below the length.
    pub fn get(&self, i: usize) -> Option<&IndexDef>
        ensures item { option_copied result ≡ slice_get self.now i }
        ensures lawful { AreDefs self.now }
    {
        self.list.get(i)
    }

    /// The definitions in their order.
    pub fn as_slice(&self) -> &[IndexDef]
        ensures value { result.now ≡ self.now }
        ensures lawful { AreDefs self.now }
    {
        self.list.as_slice()
    }

    /// Puts `def` at the end. It is handed back, and the list stays, exactly where it is there already or there is no
    /// memory; more than 2^32 - 1 definitions count as out of memory.
    pub fn push(&mut self, def: IndexDef) -> Result<(), IndexDef>
        ensures ok { OnOk result (self.new ≡ self.old ++ def ∷ []) }
        ensures distinct { OnOk result (IsFalse (list_any (same_def def) self.old)) }
        ensures err { IfErr result (λ back. (back ≡ def) × (self.new ≡ self.old)) }
    {
        if self.list.len() >= u32::MAX as usize || contains(self.list.as_slice(), &def) {
            return Err(def);
        }
        self.list.push(def)
    }
}

// Whether the definition is there.
pub(crate) fn contains(defs: &[IndexDef], def: &IndexDef) -> bool
    ensures { result ≡ list_any (same_def def.now) defs.now }
{
    defs.iter().any(|known| *def == *known)
}

impl TryCopy for Defs {
    fn copy(&self, alloc: Global) -> Result<Defs, AllocError> {
        let list = self.list.copy(alloc)?;
        Ok(Defs { list })
    }
}
