//! The rule of the two copies: the copy that is shown is the fold of its prefix, all of which belongs to the hub.
use crate::absorb::Absorb;
use crate::prefix::Prefix;
use crate::version::Version;
use atomic_table::{Join, Split};
use crossbeam_utils::rule::{Outcome, Protocol};
use std::marker::PhantomData;

/// Where a hub begins: the state with no operation, and its empty prefix. No value of it is made.
pub struct Origin<T, E> {
    pub start: T,
    pub prefix: Prefix<E>,
}

/// What a reader or the writer knows: where its hub begins, once it was told.
pub type Knows<O, S> = Option<Origin<<S as Absorb<O>>::State, <S as Absorb<O>>::Told>>;

/// The copy that is shown is the fold of its prefix, from where everyone knows the hub to begin, and all of its prefix belongs there.
pub struct ShownIsFold<O> {
    of: PhantomData<O>,
}

impl<O: Drop, S: Absorb<O> + Drop> Protocol<Version<S::Told, S>, Knows<O, S>> for ShownIsFold<O> {
    ghost use Rattle.std.specs.Prelude.{None};
    ghost use Rattle.ds_hub.specs.Logs.{AllFit, told_by};

    ghost holds = { λ x views. AllFit (told_by S.asks S.applied) S.belongs (S.state x.state) x.prefix views };

    ghost first = { None };
}

/// The first publish, by which the writer learns where the hub begins.
pub struct Begins<O> {
    of: PhantomData<O>,
}

impl<O: Drop, S: Absorb<O> + Drop> Outcome<Version<S::Told, S>, Knows<O, S>> for Begins<O> {
    ghost use Rattle.std.specs.Prelude.{◌≡◌, Some};

    ghost then = { λ v x y w. w ≡ Some (record { start = S.state x.state; prefix = x.prefix }) };
}

/// An enter or a later publish, which leaves what is known.
pub struct Stays<O> {
    of: PhantomData<O>,
}

impl<O: Drop, S: Absorb<O> + Drop> Outcome<Version<S::Told, S>, Knows<O, S>> for Stays<O> {
    ghost use Rattle.std.specs.Prelude.{◌≡◌};
    ghost use Rattle.ds_hub.specs.Logs.{Fits, told_by};

    ghost then = { λ v x y w. (w ≡ v) × Fits (told_by S.asks S.applied) S.belongs (S.state y.state) y.prefix v };
}

/// The writer hands on all that it knows, and a new reader takes that over.
pub struct HandsOn;

impl<T, E> Split<Option<Origin<T, E>>> for HandsOn {
    ghost left = { λ v. v };

    ghost right = { λ v. v };
}

impl<T, E> Join<Option<Origin<T, E>>> for HandsOn {
    ghost use Rattle.std.specs.Prelude.{None};

    ghost both = { λ v w. w };

    ghost spent = { None };
}
