//! Why a transaction refuses a touch or a write.

/// Why a group isn't touched. The transaction is as it was.
#[derive(Drop, Debug)]
pub enum TxnRefused {
    /// It is a second group, and the transaction may touch one alone.
    SecondGroup,
    /// It is a group above 25.
    TooManyGroups,
    /// There was no memory.
    NoMemory,
}

/// Why a write isn't taken.
#[derive(Drop, Debug)]
pub enum WriteCause {
    /// The transaction has 500 writes.
    TooManyWrites,
    /// There was no memory.
    NoMemory,
}

/// A write that isn't taken; the transaction is as it was.
#[derive(Drop)]
pub struct WriteRefused<X> {
    /// Why.
    pub cause: WriteCause,
    /// The entity or key, handed back.
    pub thing: X,
}
