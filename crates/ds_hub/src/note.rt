//! What the writer or a reader tells.
ghost use Rattle.std.specs.Prelude.{◌≡◌, length};

use crate::prefix::Prefix;
use std::marker::Model;

/// What a hub's writer had published when it told, or the longest list that the reader that told saw or learnt. It holds
/// nothing of the list. Contracts see the hub and that list.
#[derive(Drop)]
pub struct Note<E> {
    pub(crate) prefix: Prefix<E>,
}

impl<E> Model for Note<E> {
    ghost use Rattle.ds_hub.specs.Line.{Line};

    ghost Value = { Line E };

    ghost view = { λ n. n.prefix };
}

impl<E> Note<E> {
    /// How long the list is that it tells.
    pub fn len(&self) -> u64
        ensures { result ≡ length self.now.list }
    {
        self.prefix.len()
    }

    /// The same note once more. It takes no memory.
    pub fn duplicate(&self) -> Note<E>
        ensures { result ≡ self.now }
    {
        Note {
            prefix: self.prefix.duplicate(),
        }
    }
}
