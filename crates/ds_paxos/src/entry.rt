//! An entry, which members and messages share.
ghost use Rattle.std.specs.Prelude.{◌≡◌, IfOk};

use ds_base::{NoMemory, TextString, TryCopy};
use std::alloc::{AllocError, Global};
use std::marker::Model;
use std::sync::Arc;

/// An entry of a log. Its copies share the text, and the last owner frees it.
#[derive(Drop)]
pub struct Entry {
    text: Arc<TextString, Global>,
}

impl Model for Entry {
    ghost use Rattle.std.specs.Prelude.{List, ℕ};
    ghost use Rattle.std.specs.Arc.{arc_value};

    ghost Value = { List ℕ };

    ghost view = { λ e. arc_value e.text };
}

impl Entry {
    /// The entry of this text, which is moved in. A refusal means out of memory.
    pub fn new(alloc: Global, text: TextString) -> Result<Entry, NoMemory>
        ensures { IfOk result (λ entry. entry ≡ text) }
    {
        match Arc::new(alloc, text) {
            Ok(text) => Ok(Entry { text }),
            Err(_) => Err(AllocError),
        }
    }

    /// The text.
    pub fn text(&self) -> &TextString
        ensures { result.now ≡ self.now }
    {
        &self.text
    }
}

impl TryCopy for Entry {
    /// Another owner of the same text.
    fn copy(&self, _alloc: Global) -> Result<Entry, NoMemory> {
        Ok(Entry {
            text: Arc::try_clone(&self.text)?,
        })
    }
}
