//! A list of readers.
ghost use Rattle.std.specs.Prelude.{◌≡◌, ◌∷◌, ◌++◌, ◌<◌, [], None, Some, length, slice_get, slice_set, option_copied, MatchOption};
ghost use Rattle.std.specs.Prelude.{MatchResult};

use crate::absorb::Absorb;
use crate::reader::Reader;
use std::alloc::Global;
use std::marker::Model;
use std::mem;

/// A list of readers. Contracts see what they see of each reader.
#[derive(Drop)]
pub struct Readers<O: Drop, S: Absorb<O> + Drop> {
    items: Vec<Reader<O, S>>,
}

impl<O: Drop, S: Absorb<O> + Drop> Model for Readers<O, S> {
    ghost use Rattle.std.specs.Prelude.{List};
    ghost use Rattle.ds_hub.specs.Holding.{Following};

    ghost Value = { List (Following S.State S.Told) };

    ghost view = { λ r. r.items.items };
}

impl<O: Drop, S: Absorb<O> + Drop> Readers<O, S> {
    /// An empty list, which takes no memory.
    pub fn new(alloc: Global) -> Self
        ensures { result ≡ [] }
    {
        Readers {
            items: Vec::new(alloc),
        }
    }

    /// The list as a vector.
    pub fn into_vec(self) -> Vec<Reader<O, S>>
        ensures { result.items ≡ self }
    {
        self.items
    }

    /// Puts a reader in the place of that at `i`, which it gives.
    pub fn replace(&mut self, i: usize, item: Reader<O, S>) -> Reader<O, S>
        requires { i < length self.old }
        ensures given { Some result ≡ slice_get self.old i }
        ensures replaced { self.new ≡ slice_set self.old i item }
    {
        mem::replace(&mut self.items[i], item)
    }

    /// How many readers there are.
    pub fn len(&self) -> usize
        ensures { result ≡ length self.now }
    {
        self.items.len()
    }

    /// The reader at a place. `None` where the place isn't below the length.
    pub fn get(&self, i: usize) -> Option<&Reader<O, S>>
        ensures { option_copied result ≡ slice_get self.now i }
    {
        self.items.as_slice().get(i)
    }

    /// Puts a reader at the end. `Err` hands it back when out of memory, and changes nothing.
    pub fn push(&mut self, item: Reader<O, S>) -> Result<(), Reader<O, S>>
        ensures { MatchResult result (λ _. self.new ≡ self.old ++ item ∷ []) (λ back. (back ≡ item) × (self.new ≡ self.old)) }
    {
        match self.items.push(item) {
            Ok(()) => Ok(()),
            Err(failed) => Err(failed.value),
        }
    }

    /// Takes the last reader out. `None` where there is none.
    pub fn pop(&mut self) -> Option<Reader<O, S>>
        ensures { MatchOption result ((self.old ≡ []) × (self.new ≡ [])) (λ last. self.old ≡ self.new ++ last ∷ []) }
    {
        self.items.pop()
    }
}

impl<O: Drop, S: Absorb<O> + Drop> From<Vec<Reader<O, S>>> for Readers<O, S> {
    /// The list of a vector's readers. It takes no memory.
    fn from(items: Vec<Reader<O, S>>) -> Self
        ensures { result ≡ items.items }
    {
        Readers { items }
    }
}
