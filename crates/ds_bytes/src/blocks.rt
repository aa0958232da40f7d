//! How bytes that are turned round are taken apart.

/// How many bytes are turned round at once: two vectors of the kernels.
pub(crate) const BLOCK: usize = 64;
