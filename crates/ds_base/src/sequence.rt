//! The one list type of the workspace.
ghost use Rattle.std.specs.Prelude.{◌≡◌, [], ◌∷◌, ◌++◌, length, slice_get, OnOk, IfOk, IfErr};
ghost use Rattle.std.specs.Option.{option_copied};

use std::alloc::{AllocError, Global};
use std::marker::Model;

/// A value that can be copied, where memory suffices.
pub trait TryCopy: Drop {
    /// Gives an equal value, which lives on without this one. What nothing changes may be shared, as an entity's
    /// properties; all else gets memory of its own.
    fn copy(&self, alloc: Global) -> Result<Self, AllocError>
        ensures copied { IfOk result (λ c. c ≡ self.now) };
}

impl<T: TryCopy> TryCopy for Option<T> {
    fn copy(&self, alloc: Global) -> Result<Self, AllocError> {
        copy_of(alloc, self.as_ref())
    }
}

/// A copy of what is lent, if there is something.
pub fn copy_of<T: TryCopy>(alloc: Global, item: Option<&T>) -> Result<Option<T>, AllocError>
    ensures { IfOk result (λ c. c ≡ option_copied item.entry) }
{
    match item {
        Some(item) => Ok(Some(item.copy(alloc)?)),
        None => Ok(None),
    }
}

/// A list in the order in which its items were pushed.
#[derive(Drop)]
pub struct Sequence<T> {
    pub(crate) items: Vec<T>,
}

impl<T> Model for Sequence<T> {
    ghost use Rattle.std.specs.Prelude.{List};

    ghost Value = { List T };

    ghost view = { λ s. s.items.items };
}

impl<T> Sequence<T> {
    /// The empty list. It takes no memory.
    pub fn new(alloc: Global) -> Self
        ensures { result ≡ [] }
    {
        Sequence {
            items: Vec::new(alloc),
        }
    }

    /// How many items there are.
    pub fn len(&self) -> usize
        ensures { result ≡ length self.now }
    {
        self.items.len()
    }

    /// The item at place `i`, counted from 0; `None` exactly where `i` is not below the length.
    pub fn get(&self, i: usize) -> Option<&T>
        ensures { option_copied result ≡ slice_get self.now i }
    {
        self.items.as_slice().get(i)
    }

    /// The items in their order.
    pub fn as_slice(&self) -> &[T]
        ensures { result.now ≡ self.now }
    {
        self.items.as_slice()
    }

    /// Puts `item` at the end. Where there is no memory it is handed back, and the list stays.
    pub fn push(&mut self, item: T) -> Result<(), T>
        ensures ok { OnOk result (self.new ≡ self.old ++ item ∷ []) }
        ensures err { IfErr result (λ back. (back ≡ item) × (self.new ≡ self.old)) }
    {
        match self.items.push(item) {
            Ok(()) => Ok(()),
            Err(refused) => Err(refused.value),
        }
    }
}

impl<T: Drop> Sequence<T> {
    /// The list of one item, with room for it alone. A refusal means out of memory.
    pub fn of_one(alloc: Global, item: T) -> Result<Self, AllocError>
        ensures { IfOk result (λ list. list ≡ item ∷ []) }
    {
        let mut items = Vec::with_capacity(alloc, 1)?;
        items.push(item)?;
        Ok(Sequence { items })
    }
}

impl<T> Sequence<T> {
    /// The items, moved out in their order.
    pub fn into_vec(self) -> Vec<T>
        ensures { result.items ≡ self }
    {
        self.items
    }
}

impl<T: TryCopy> TryCopy for Sequence<T> {
    fn copy(&self, alloc: Global) -> Result<Self, AllocError> {
        let mut items = Vec::with_capacity(alloc, self.items.len())?;
        for item in self.items.as_slice() {
            let item = item.copy(alloc)?;
            items.push(item)?;
        }
        Ok(Sequence { items })
    }
}

impl<T> From<Vec<T>> for Sequence<T> {
    ghost from_gives = { λ items list. list ≡ items.items };

    /// The list of these items. It takes no memory.
    fn from(items: Vec<T>) -> Self {
        Sequence { items }
    }
}
