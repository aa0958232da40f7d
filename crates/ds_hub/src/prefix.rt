//! What a thread knows of the list that a hub publishes.
ghost use Rattle.std.specs.Prelude.{◌≡◌, ◌+◌, ◌<◌, ◌^◌, ◌∷◌, ◌++◌, ◌⊎◌, ◌↔◌, IsTrue, [], length, MatchBool};
ghost use mathlib.Core.List.{IsPrefix};

use crate::history::{Announce, CountsAnnounced, NoGain};
use crate::tells::Tells;
use logbook::{Offer, Seen, Start, Word};
use std::marker::Model;

/// A beginning of the list that a hub publishes, as far as its holder knows it. It holds a number, and nothing of the list.
/// Contracts see the hub and that beginning.
#[derive(Drop)]
pub struct Prefix<E> {
    held: u64,
    seen: Seen<E, u64, CountsAnnounced>,
}

impl<E> Model for Prefix<E> {
    ghost use Rattle.std.specs.Prelude.{◌≡◌, length};
    ghost use Rattle.ds_hub.specs.Line.{Line};

    ghost Value = { Line E };

    ghost view = { λ p. record { hub = p.seen.book; list = p.seen.log } };

    ghost invariant = { λ p. p.held ≡ length p.seen.log };
}

/// The word of a hub's history, which its writer alone holds. Contracts see which hub it is.
#[derive(Drop)]
pub struct Head<E> {
    word: Word<E, u64, CountsAnnounced>,
}

impl<E> Model for Head<E> {
    ghost use Rattle.std.specs.Prelude.{◌≡◌};
    ghost use Rattle.logbook.specs.Pages.{Book, book_coded};
    ghost use Rattle.ds_hub.specs.Line.{head_of};

    ghost Value = { Book };

    ghost coded = { book_coded };

    ghost view = { λ h. h.word.book };

    ghost invariant = { λ h. h.word ≡ head_of h.word.book };
}

impl<E> Head<E> {
    /// A new history, with nothing in it.
    pub fn open() -> (Head<E>, Prefix<E>)
        ensures { (result.1.hub ≡ result.0) × (result.1.list ≡ []) }
    {
        let (seen, mut first, _second) = Seen::open(Start::alone(), 0, 0);
        (
            Head {
                word: Word::tracked(0, &mut first),
            },
            Prefix { held: 0, seen },
        )
    }

    /// Puts what `M` tells of a value behind all that the prefix has, and says whether it did. It didn't where another had
    /// written the history, which no other can.
    pub fn announce<X, M: Tells<X, E>>(&self, prefix: &mut Prefix<E>, about: &X) -> bool
        requires hub { prefix.old.hub ≡ self.now }
        requires room { length prefix.old.list < 2 ^ 62 }
        ensures hub { prefix.new.hub ≡ prefix.old.hub }
        ensures list { MatchBool result (prefix.new.list ≡ prefix.old.list ++ M.told about.now ∷ []) (prefix.new ≡ prefix.old) }
    {
        let mut seen = prefix.seen.again();
        let mut offer: Offer<E, u64, CountsAnnounced, NoGain> = seen.plain::<
            NoGain,
            X,
            Announce<M>,
        >(about);
        let mut pen = seen.no_pen();
        let held = prefix.held;
        let found = self
            .word
            .compare_exchange::<Announce<M>, NoGain>(
                held,
                held + 1,
                &mut seen,
                &mut offer,
                &mut pen,
            );
        if found == held {
            *prefix = Prefix {
                held: held + 1,
                seen,
            };
            true
        } else {
            false
        }
    }
}

impl<E> Prefix<E> {
    /// How long its list is.
    pub fn len(&self) -> u64
        ensures { result ≡ length self.now.list }
    {
        self.held
    }

    /// A copy, which takes no memory.
    pub fn duplicate(&self) -> Prefix<E>
        ensures { result ≡ self.now }
    {
        Prefix {
            held: self.held,
            seen: self.seen.again(),
        }
    }

    /// Whether the other prefix of this hub begins with this one.
    pub fn begins(&self, other: &Prefix<E>) -> bool
        requires { other.now.hub ≡ self.now.hub }
        ensures { IsTrue result ↔ IsPrefix self.now.list other.now.list }
    {
        let mut both = self.seen.again();
        both.learn(&other.seen);
        self.held <= other.held
    }

    /// The longer of two prefixes of one hub, which the other begins.
    pub fn longer(&self, other: &Prefix<E>) -> Prefix<E>
        requires { other.now.hub ≡ self.now.hub }
        ensures one { (result ≡ self.now) ⊎ (result ≡ other.now) }
        ensures this { IsPrefix self.now.list result.list }
        ensures that { IsPrefix other.now.list result.list }
    {
        let mut both = self.seen.again();
        both.learn(&other.seen);
        if self.held < other.held {
            other.duplicate()
        } else {
            self.duplicate()
        }
    }
}
