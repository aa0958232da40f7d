//! The bytes of keys, as members of a set.
ghost use Rattle.std.specs.Prelude.{◌≡◌, ◌↔◌, ℕ, List, [], ◌∷◌, IsTrue, IfOk, fold, nat_eq};
ghost use Rattle.std.specs.Cmp.{partial_equiv_from_equiv};
ghost use Rattle.std.specs.Cmp.Lexicographic.{bytes_decides, nat_list_eq_equiv, pointwise};
ghost use Rattle.std.specs.Hash as fed;

use ds_base::{ByteString, NoMemory};
use std::alloc::Global;
use std::hash::{Hash, Hasher};
use std::marker::Model;

/// The bytes of a key, as they stand in the place of a row. Contracts see the bytes.
#[derive(Drop)]
pub(crate) struct KeyBytes {
    bytes: ByteString,
}

impl Model for KeyBytes {
    ghost Value = { List ℕ };

    ghost view = { λ k. k.bytes };
}

impl KeyBytes {
    /// A copy of these bytes. Refused: lack of memory.
    pub(crate) fn of(alloc: Global, bytes: &[u8]) -> Result<KeyBytes, NoMemory>
        ensures { IfOk result (λ k. k ≡ bytes.now) }
    {
        Ok(KeyBytes {
            bytes: ByteString::of(alloc, bytes)?,
        })
    }
}

impl PartialEq for KeyBytes {
    ghost eq = { pointwise nat_eq };

    ghost laws = { partial_equiv_from_equiv nat_list_eq_equiv };

    fn eq(&self, other: &KeyBytes) -> bool
        ensures value { result ≡ pointwise nat_eq self.now other.now }
        ensures same { IsTrue result ↔ (self.now ≡ other.now) }
    {
        self.bytes == other.bytes
    }
}

impl Eq for KeyBytes {
    ghost laws = { nat_list_eq_equiv };
}

impl Hash for KeyBytes {
    ghost hash_input = { λ k. k ∷ [] };

    ghost respects_eq = { (fed.same_Alike (λ k. k ∷ []) bytes_decides).fed };

    /// Feeds the bytes at once.
    fn hash<H: Hasher>(&self, state: &mut H)
        ensures { state.new ≡ fold H.write state.old (self.now ∷ []) }
    {
        state.write(self.bytes.bytes());
    }
}
