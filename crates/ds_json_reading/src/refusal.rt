//! Why a part of a line can't be read.

/// What is wrong with a member of a request, before it is told which member.
#[derive(Clone, Copy, PartialEq, Eq)]
pub enum Refusal {
    /// Its shape is wrong, or it is missing.
    Request,
    /// What stands where a key is to stand is no key.
    Key,
    /// What stands where a value is to stand is no value.
    Value,
    /// There was no memory.
    NoMemory,
}
