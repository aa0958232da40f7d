//! Arrays whose items have one form.
ghost use Rattle.std.specs.Prelude.{◌≡◌, ◌<◌, Ok, length, IfSome};
ghost use Rattle.serde_json.specs.Data.{Items};
ghost use Rattle.ds_json_reading.specs.Reading.{each_of, list_of};
ghost use Rattle.ds_line_reading.specs.Parts.{IsRead, AreItems};

use crate::form::LineForm;
use ds_base::Sequence;
use json::{Reader, Token};
use std::alloc::Global;

/// Reads an array of any number of items.
pub fn read_list<F: LineForm>(
    alloc: Global,
    form: &F,
    reader: &mut Reader<'_>,
    depth: usize,
) -> Option<Sequence<F::Item>>
    ensures { IfSome result (λ xs. IsRead depth (list_of (F.reads form.now)) reader.old xs reader.new) }
{
    if depth == 0 {
        return None;
    }
    let Some(Token::BeginArray) = reader.next() else {
        return None;
    };
    read_items(alloc, form, reader, depth - 1)
}

/// Reads the items of an array that has begun.
pub(crate) fn read_items<F: LineForm>(
    alloc: Global,
    form: &F,
    reader: &mut Reader<'_>,
    depth: usize,
) -> Option<Sequence<F::Item>>
    ensures { IfSome result (λ xs. (ds : Items) × AreItems depth reader.old ds reader.new
        × (each_of (F.reads form.now) ds ≡ Ok xs) × (length reader.new < length reader.old)) }
{
    let Ok(mut found) = Vec::with_capacity(alloc, 1) else {
        return None;
    };
    'items: while !reader.take_end_array() {
        let item = form.read(alloc, reader, depth)?;
        if let Err(_) = found.push(item) {
            return None;
        }
    }
    Some(Sequence::from(found))
}
