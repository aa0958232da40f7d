//! Replies that an output didn't take.
ghost use Rattle.std.specs.Prelude.{◌≡◌, ◌+◌, ◌^◌, ◌-◌, ◌<◌, ◌≤◌, ◌==◌, [], length, drop, flat_map, map, min, slice_get};
ghost use Rattle.ds_base.specs.Limits.{greatest_client};
ghost use Rattle.ds_output.specs.Unsent.{AreEmpty, IsPartTaken};

use ds_base::Buffer;
use ds_base::limits::MAX_CLIENT;
use std::alloc::Global;
use std::marker::Model;

/// A text for each client.
pub type Texts = [Buffer; MAX_CLIENT as usize + 1];

/// The replies of a round that were not taken, in the clients' own buffers: they are moved here, which takes no memory. Contracts see the
/// list of their bytes.
#[derive(Drop)]
pub struct Unsent {
    texts: Texts,
    /// Whose text was taken in part: the texts before it were taken, and those behind it were not.
    client: usize,
    /// How many of its bytes were taken.
    taken: usize,
}

impl Model for Unsent {
    ghost use Rattle.std.specs.Prelude.{List, ℕ, drop, flat_map};
    ghost use Rattle.ds_output.specs.Unsent.{IsPartTaken};

    ghost Value = { List ℕ };

    ghost view = { λ u. drop u.taken (flat_map (λ text. text.bytes) (drop u.client u.texts)) };

    ghost invariant = { λ u. IsPartTaken u.texts u.client u.taken };
}

impl Unsent {
    /// Nothing unsent. It takes no memory.
    pub fn none(alloc: Global) -> Unsent
        ensures { result ≡ [] }
    {
        Unsent {
            texts: no_texts(alloc),
            client: 0,
            taken: 0,
        }
    }

    /// What is left of these texts behind the first bytes of a client's. It takes no memory.
    pub fn rest_of(texts: Texts, client: usize, taken: usize) -> Unsent
        requires { IsPartTaken texts client taken }
        ensures { result ≡ drop taken (flat_map (λ text. text.bytes) (drop client texts)) }
    {
        Unsent {
            texts,
            client,
            taken,
        }
    }

    /// How many bytes there are, or `usize::MAX` where they are more, which no memory holds.
    pub fn len(&self) -> usize
        ensures { result ≡ min (length self.now) (2 ^ 64 - 1) }
    {
        let texts = &self.texts[..];
        let rest = &texts[self.client].bytes()[self.taken..];
        length_with(rest.len(), &texts[self.client + 1..])
    }

    /// Whether there is none.
    pub fn is_empty(&self) -> bool
        ensures { result ≡ (length self.now == 0) }
    {
        self.len() == 0
    }

    /// The byte at place `i`, counted from 0; `None` exactly where `i` is not below the length.
    pub fn byte(&self, i: usize) -> Option<u8>
        ensures { result ≡ slice_get self.now i }
    {
        let texts = &self.texts[..];
        let rest = &texts[self.client].bytes()[self.taken..];
        if i < rest.len() {
            return Some(rest[i]);
        }
        byte_in(&texts[self.client + 1..], i - rest.len())
    }
}

/// How many bytes so many and these texts have, or `usize::MAX` where they are more.
fn length_with(first: usize, texts: &[Buffer]) -> usize
    ensures { result ≡ min (first + length (flat_map (λ text. text.bytes) texts.now)) (2 ^ 64 - 1) }
{
    let mut total = first;
    for text in texts {
        total = total.saturating_add(text.bytes().len());
    }
    total
}

/// The byte at a place of texts that stand one behind the other.
fn byte_in(texts: &[Buffer], place: usize) -> Option<u8>
    ensures { result ≡ slice_get (flat_map (λ text. text.bytes) texts.now) place }
{
    let mut left = place;
    for text in texts {
        let bytes = text.bytes();
        if left < bytes.len() {
            return Some(bytes[left]);
        }
        left -= bytes.len();
    }
    None
}

/// An empty text for each client. It takes no memory.
pub fn no_texts(alloc: Global) -> Texts
    ensures many { length result ≡ greatest_client + 1 }
    ensures empty { AreEmpty result }
{
    std::array::from_fn(
        |_client| -> Buffer
            ensures { result.bytes ≡ [] }
        { Buffer::new(alloc) },
    )
}
