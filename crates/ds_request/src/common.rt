//! Lines of a common form, whose requests are made in one pass over their tokens.
ghost use Rattle.std.specs.Prelude.{◌≡◌, Some, Ok, IsTrue, IfSome};
ghost use Rattle.serde_json.specs.Data.{object, Members, no_members};
ghost use Rattle.serde_json.specs.Read.{read};
ghost use Rattle.ds_line_reading.specs.Tables.{are_apart};
ghost use Rattle.ds_request.specs.Common.{HoldsLine};
ghost use Rattle.ds_request.specs.Lawful.{IsLawfulCall};
ghost use Rattle.ds_request.specs.Requests.{data_request_of, request_of};

mod calls;
mod entities;
mod members;
mod queries;

use crate::call::Request;
use crate::common::calls::request_of;
use crate::common::members::{LineTable, new_table};
use ds_line_reading::{Table, fill_object};
use json::{Reader, Scratch};
use std::alloc::Global;

/// How deep arrays and objects may nest.
const MAX_DEPTH: usize = 127;

/// How many bytes a line has at most that is read here.
const MAX_COMMON_BYTES: usize = 512;

/// The request of a line of a common form; none where it has no such form, or when out of memory.
pub(crate) fn read_common(alloc: Global, line: &[u8], scratch: &mut Scratch) -> Option<Request>
    ensures { IfSome result (λ r. (request_of line.now ≡ Ok r) × IsLawfulCall r.call) }
{
    // Long lines, and those that begin otherwise, are mostly of another form, and needn't be looked at twice.
    if line.len() > MAX_COMMON_BYTES || !line.starts_with(b"{\"") {
        return None;
    }
    match simdutf8::compat::from_utf8(line) {
        Ok(text) => read_common_text(alloc, text, scratch),
        Err(_) => None,
    }
}

fn read_common_text(alloc: Global, text: &str, scratch: &mut Scratch) -> Option<Request>
    ensures { IfSome result (λ r. (data_request_of (read text.now) ≡ Ok r) × IsLawfulCall r.call) }
{
    let mut table = new_table();
    read_into(alloc, text, scratch, &mut table)
}

/// The request of a text, by this table of which nothing was read.
fn read_into(
    alloc: Global,
    text: &str,
    scratch: &mut Scratch,
    table: &mut LineTable,
) -> Option<Request>
    requires { HoldsLine table.old no_members }
    ensures { IfSome result (λ r. (data_request_of (read text.now) ≡ Ok r) × IsLawfulCall r.call) }
{
    if !fill_from(alloc, text, scratch, table) {
        return None;
    }
    request_of(alloc, table)
}

/// Reads the members of a text's object into a table; false where that can't be done. It stands apart from the table's making, as what
/// is held at a way out makes the proof dearer.
fn fill_from<T: Table>(alloc: Global, text: &str, scratch: &mut Scratch, table: &mut T) -> bool
    requires apart { IsTrue (are_apart T.names) }
    requires empty { T.holds table.old no_members }
    ensures { IsTrue result → (ms : Members) × (read text.now ≡ Some (object ms)) × T.holds table.new ms }
{
    let Ok(mut reader) = Reader::new(text, scratch) else {
        return false;
    };
    if !fill_object(alloc, table, &mut reader, MAX_DEPTH) {
        return false;
    }
    reader.next().is_none()
}
