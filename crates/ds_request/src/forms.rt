//! The form that requests and other texts have in common: entities, read from a JSON value.
pub(crate) mod entities;
