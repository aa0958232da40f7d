//! The members of a request, read in their order.
pub(crate) mod one;
pub(crate) mod several;
pub(crate) mod told;
