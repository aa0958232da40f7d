//! Forms: rules by which a JSON value, or a part of it, is read.
ghost use Rattle.std.specs.Prelude.{Result};
ghost use Rattle.serde_json.specs.Data.{Data};
ghost use Rattle.serde_json.specs.View.{view};
ghost use Rattle.ds_json_reading.specs.declared.refusal.Refusal.{Refusal};
ghost use Rattle.ds_json_reading.specs.Reading.{Reads};

use crate::refusal::Refusal;
use serde_json::Value;
use std::alloc::Global;

/// A rule by which a JSON value is read.
pub trait Form: Drop {
    /// What is read.
    type Item: Drop;

    ghost reads: { Self → Data → Result Self.Item Refusal };

    /// Reads the value, or tells what is wrong with it.
    fn read(&self, alloc: Global, value: Value) -> Result<Self::Item, Refusal>
        ensures { Reads Refusal.NoMemory (reads self.now (view value)) result };
}
