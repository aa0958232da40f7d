//! Forms of parts that are read from tokens.
ghost use Rattle.std.specs.Prelude.{Result, IfSome};
ghost use Rattle.serde_json.specs.Data.{Data};
ghost use Rattle.ds_json_reading.specs.declared.refusal.Refusal.{Refusal};
ghost use Rattle.ds_line_reading.specs.Parts.{IsRead};

use json::Reader;
use std::alloc::Global;

/// A rule by which the first value of the tokens is read, where it has a common form.
pub trait LineForm: Drop {
    /// What is read.
    type Item: Drop;

    ghost reads: { Self → Data → Result Self.Item Refusal };

    /// Reads the value, which nests no deeper than `depth`; none where it has no common form, or when out of memory.
    fn read(&self, alloc: Global, reader: &mut Reader<'_>, depth: usize) -> Option<Self::Item>
        ensures { IfSome result (λ x. IsRead depth (reads self.now) reader.old x reader.new) };
}
