//! What the rows of an index begin with: of an entity's rows, and of the ranges that a query reads.
ghost use Rattle.std.specs.Prelude.{◌≡◌, ℕ, ◌<◌, List, ◌∷◌, ◌++◌, [], if◌then◌else◌, length, OnOk};
ghost use Rattle.ds_bytes.specs.Encoding.{escaped};
ghost use Rattle.ds_base.specs.Bytes.{AreBytes};
ghost use Rattle.ds_indexdef.specs.declared.IndexDef.{IndexDef};
ghost use Rattle.ds_rows.specs.Indexes.{AllByKey, KindByKey, ByProperty, Composite};
ghost use Rattle.ds_rows.specs.Rows.{index_front};

use ds_base::{Buffer, NoMemory, TextString};
use ds_bytes::encode_text;

/// The bytes that tell the kinds of indexes apart.
const ALL_BY_KEY: u8 = 0x00;

const KIND_BY_KEY: u8 = 0x01;

const BY_PROPERTY: u8 = 0x02;

const BY_PROPERTY_DESCENDING: u8 = 0x03;

const COMPOSITE: u8 = 0x04;

/// Leaves in `front`, in place of what it held, what rows in the index of all entities of a namespace begin with. Refused: want of
/// memory, as in the other calls here.
pub fn put_all_front(namespace: &TextString, front: &mut Buffer) -> Result<(), NoMemory>
    ensures { OnOk result (front.new.bytes ≡ index_front AllByKey namespace.now []) }
{
    begin(ALL_BY_KEY, namespace, front)
}

/// Leaves in `front`, in place of what it held, what rows in the index of a kind begin with in a namespace.
pub fn put_kind_front(
    namespace: &TextString,
    kind: &[u8],
    front: &mut Buffer,
) -> Result<(), NoMemory>
    ensures { OnOk result (front.new.bytes ≡ index_front KindByKey namespace.now kind.now) }
{
    begin(KIND_BY_KEY, namespace, front)?;
    encode_text(kind, front)
}

/// Leaves in `front`, in place of what it held, what rows in the index of a property begin with in a namespace and kind.
pub fn put_property_front(
    namespace: &TextString,
    kind: &[u8],
    name: &TextString,
    descending: bool,
    front: &mut Buffer,
) -> Result<(), NoMemory>
    ensures front { OnOk result (front.new.bytes ≡ index_front (ByProperty name.now descending) namespace.now kind.now) }
    ensures name { OnOk result (AreBytes name.now) }
{
    begin(property_tag(descending), namespace, front)?;
    encode_text(kind, front)?;
    put_name(name.bytes(), front)
}

/// Leaves in `front`, in place of what it held, what rows in the index of a property begin with in a namespace and kind, of which
/// `kind_front` is what rows in the index of the kind begin with: it differs in the first byte alone, and ends before the name.
pub(crate) fn put_property_front_by(
    kind_front: &[u8],
    name: &TextString,
    descending: bool,
    front: &mut Buffer,
) -> Result<(), NoMemory>
    requires { 0 < length kind_front.now }
    ensures front { (namespace kind : List ℕ) → kind_front.now ≡ index_front KindByKey namespace kind
        → OnOk result (front.new.bytes ≡ index_front (ByProperty name.now descending) namespace kind) }
    ensures name { OnOk result (AreBytes name.now) }
{
    front.clear();
    front.append(&[property_tag(descending)])?;
    front.append(&kind_front[1..])?;
    put_name(name.bytes(), front)
}

fn put_name(name: &[u8], front: &mut Buffer) -> Result<(), NoMemory>
    ensures put { OnOk result (front.new.bytes ≡ front.old.bytes ++ escaped name.now) }
    ensures name { OnOk result (AreBytes name.now) }
{
    encode_text(name, front)
}

/// Leaves in `front`, in place of what it held, what rows in the composite index of the definition at this place begin with in a
/// namespace. The definition tells their kind.
pub fn put_composite_front(
    namespace: &TextString,
    position: u32,
    front: &mut Buffer,
) -> Result<(), NoMemory>
    ensures { (def : IndexDef) → OnOk result (front.new.bytes ≡ index_front (Composite position def) namespace.now []) }
{
    begin(COMPOSITE, namespace, front)?;
    front.append(&position.to_be_bytes())
}

fn property_tag(descending: bool) -> u8
    ensures { result ≡ (if descending then 3 else 2) }
{
    if descending {
        BY_PROPERTY_DESCENDING
    } else {
        BY_PROPERTY
    }
}

/// Leaves in `front` the byte and the namespace.
fn begin(tag: u8, namespace: &TextString, front: &mut Buffer) -> Result<(), NoMemory>
    ensures { OnOk result (front.new.bytes ≡ tag ∷ escaped namespace.now) }
{
    front.clear();
    front.append(&[tag])?;
    encode_text(namespace.bytes(), front)
}
