//! Keys as JSON.
ghost use Rattle.std.specs.Prelude.{false};
ghost use Rattle.serde_json.specs.Written.{compact_text, items_text};
ghost use Rattle.ds_json_printing.specs.Printing.{ident_data, elem_data, elem_items, keyed_items, key_data};

use crate::output::Output;
use crate::text::{write_comma, write_escaped, write_natural, write_text};
use ds_base::{Elem, Ident, Key, TextString};

/// Puts a key: its namespace, where that isn't the default, and its elements.
pub fn write_key<O: Output>(key: &Key, out: &mut O)
    ensures { O.Writes (compact_text (key_data key.now)) out.old out.new }
{
    out.put(b"[");
    write_keyed(key.namespace(), key.elems().as_slice(), out);
}

/// Puts the namespace, where that isn't the default, the elements and the closing bracket.
fn write_keyed<O: Output>(namespace: &TextString, elems: &[Elem], out: &mut O)
    ensures { O.Writes (items_text false (keyed_items namespace.now elems.now)) out.old out.new }
{
    if namespace.bytes().is_empty() {
        write_elems(elems, false, out);
    } else {
        write_text(namespace, out);
        write_elems(elems, true, out);
    }
}

/// Puts the elements and the closing bracket.
fn write_elems<O: Output>(elems: &[Elem], mut later: bool, out: &mut O)
    ensures { O.Writes (items_text later (elem_items elems.now)) out.old out.new }
{
    for elem in elems {
        write_comma(later, out);
        write_elem(elem, out);
        later = true;
    }
    out.put(b"]");
}

fn write_elem<O: Output>(elem: &Elem, out: &mut O)
    ensures { O.Writes (compact_text (elem_data elem.now)) out.old out.new }
{
    out.put(b"[\"");
    write_escaped(elem.kind.bytes(), out);
    out.put(b"\",");
    write_ident(&elem.ident, out);
    out.put(b"]");
}

fn write_ident<O: Output>(ident: &Ident, out: &mut O)
    ensures { O.Writes (compact_text (ident_data ident.now)) out.old out.new }
{
    match ident {
        Ident::Id(id) => write_natural(*id, out),
        Ident::Name(name) => write_text(name, out),
    }
}
