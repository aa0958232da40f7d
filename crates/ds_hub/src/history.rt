//! The ghost history of a hub: what its writer announced, and the rule that its one word keeps.

use crate::tells::Tells;
use logbook::{Gain, Plain, Play, Rule};
use std::marker::PhantomData;

/// The rule of a hub's history: its word counts what was announced.
pub struct CountsAnnounced;

impl<E> Rule<E, u64> for CountsAnnounced {
    ghost use Rattle.std.specs.Prelude.{[]};
    ghost use base.Fml.{ftrue};
    ghost use Rattle.ds_hub.specs.Line.{IsCounted};

    ghost holds = { λ cells log. IsCounted cells log };

    ghost first = { [] };

    ghost hinted = { λ n log. Unit {0} };

    ghost shows = { λ log. [] };

    ghost keeps = { λ names log. ftrue };

    ghost moves = { λ ask before after answer. Unit {0} };
}

/// Nothing is traded for a step on the history.
pub struct NoGain;

impl<E> Gain<E, u64> for NoGain {
    ghost use base.Fml.{ftrue};

    ghost after = { λ names about answer. ftrue };
}

/// The step that announces what `M` tells of a value.
pub struct Announce<M> {
    of: PhantomData<M>,
}

impl<E, M> Play<E, u64> for Announce<M> {
    ghost use Rattle.ds_hub.specs.Line.{Announced};

    ghost then = { Announced };
}

impl<X, E, M: Tells<X, E>> Plain<X, E, u64> for Announce<M> {
    ghost use Rattle.std.specs.Prelude.{None};

    ghost ask = { λ about. M.told about };

    ghost state = { λ about. None };
}
