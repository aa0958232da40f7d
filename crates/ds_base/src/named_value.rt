//! Values bound to names, as the arguments of a GQL text.
use crate::sequence::{Sequence, TryCopy};
use crate::text::TextString;
use crate::value::Value;
use std::alloc::{AllocError, Global};

/// A value bound to a name, as an argument of a GQL text.
#[derive(Drop)]
pub struct NamedValue {
    /// The name that the text cites, without the colon.
    pub name: TextString,
    /// The value that stands for it.
    pub value: Value,
}

/// Named values in their order.
pub type NamedValues = Sequence<NamedValue>;

impl TryCopy for NamedValue {
    fn copy(&self, alloc: Global) -> Result<NamedValue, AllocError> {
        Ok(NamedValue {
            name: self.name.copy(alloc)?,
            value: self.value.copy(alloc)?,
        })
    }
}
