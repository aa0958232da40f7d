//! What is told of an operation.
use std::snapshot::Snapshot;

/// Says which element of type `E` is told of a value of type `X`.
pub trait Tells<X, E> {
    // What is told.
    ghost told: { X → E };
}

/// A value that is told itself.
pub struct Itself;

impl<E> Tells<E, E> for Itself {
    ghost told = { λ element. element };
}

/// A value of which a snapshot was taken before it was moved away.
pub struct InSnapshot;

impl<E> Tells<Snapshot<E>, E> for InSnapshot {
    ghost told = { λ snapshot. snapshot.value };
}
