//! What the types of a commit keep, told by a walk over it: texts are UTF-8, byte strings are bytes, and numbers have their widths. The
//! functions change nothing; the proofs need what their contracts say.
ghost use Rattle.std.specs.Prelude.{◌≤◌, All, length};
ghost use Rattle.ds_base.specs.Bytes.{AreBytes};
ghost use Rattle.ds_base.specs.Limits.{most_writes};
ghost use Rattle.ds_bytes.specs.Lawful.{IsText, IsLawfulIdent, IsLawfulElem, IsLawfulKey};
ghost use Rattle.ds_journal_text.specs.Lawful.{IsLawfulValue, IsLawfulProperty, IsLawfulEntity};
ghost use Rattle.ds_journal_text.specs.Lawful.{IsLawfulWrite, IsLawfulTouch, IsLawfulCommit};

use ds_base::{ByteString, Elem, Ident, Key, TextString, Value};
use ds_entity::{Entity, Property};
use ds_log::{Commit, Touch, Write};

/// A commit with at most 500 writes is lawful: its client has 32 bits, its numbers 64, its keys and entities keep their rules.
pub fn commit_is_lawful(commit: &Commit)
    requires { length commit.now.writes ≤ most_writes }
    ensures { IsLawfulCommit commit.now }
{
    let _client = commit.client;
    touches_are_lawful(commit.touched.as_slice());
    writes_are_lawful(commit.writes.as_slice());
}

fn touches_are_lawful(touches: &[Touch])
    ensures { All IsLawfulTouch touches.now }
{
    for touch in touches {
        touch_is_lawful(touch);
    }
}

fn touch_is_lawful(touch: &Touch)
    ensures { IsLawfulTouch touch.now }
{
    let _place = touch.place;
    key_is_lawful(&touch.group);
}

/// The writes are lawful: the key of each, and the entity of a put.
pub fn writes_are_lawful(writes: &[Write])
    ensures { All IsLawfulWrite writes.now }
{
    for write in writes {
        write_is_lawful(write);
    }
}

fn write_is_lawful(write: &Write)
    ensures { IsLawfulWrite write.now }
{
    match write {
        Write::Put(entity) => entity_is_lawful(entity),
        Write::Delete(key) => key_is_lawful(key),
    }
}

/// An entity is lawful: its key and its values are, and it keeps the rules and limits of entities.
pub fn entity_is_lawful(entity: &Entity)
    ensures { IsLawfulEntity entity.now }
{
    key_is_lawful(entity.key());
    properties_are_lawful(entity.properties().as_slice());
}

fn properties_are_lawful(properties: &[Property])
    ensures { All IsLawfulProperty properties.now }
{
    for property in properties {
        property_is_lawful(property);
    }
}

fn property_is_lawful(property: &Property)
    ensures { IsLawfulProperty property.now }
{
    text_is_lawful(&property.name);
    values_are_lawful(property.values.as_slice());
}

fn values_are_lawful(values: &[Value])
    ensures { All IsLawfulValue values.now }
{
    for value in values {
        value_is_lawful(value);
    }
}

fn value_is_lawful(value: &Value)
    ensures { IsLawfulValue value.now }
{
    match value {
        Value::Null | Value::Rating(_) | Value::Bool(_) => {}
        Value::Int(number) | Value::Date(number) => {
            let _number = *number;
        }
        Value::Bytes(bytes) | Value::Blob(bytes) => bytes_are_lawful(bytes),
        Value::Str(text) | Value::Text(text) => text_is_lawful(text),
        Value::Key(key) => key_is_lawful(key),
    }
}

/// A key is lawful: it keeps the rules of keys, and its namespace, kinds and names are UTF-8.
pub fn key_is_lawful(key: &Key)
    ensures { IsLawfulKey key.now }
{
    text_is_lawful(key.namespace());
    elems_are_lawful(key.elems().as_slice());
}

fn elems_are_lawful(path: &[Elem])
    ensures { All IsLawfulElem path.now }
{
    for elem in path {
        elem_is_lawful(elem);
    }
}

fn elem_is_lawful(elem: &Elem)
    ensures { IsLawfulElem elem.now }
{
    text_is_lawful(&elem.kind);
    ident_is_lawful(&elem.ident);
}

fn ident_is_lawful(ident: &Ident)
    ensures { IsLawfulIdent ident.now }
{
    match ident {
        Ident::Id(id) => {
            let _id = *id;
        }
        Ident::Name(name) => text_is_lawful(name),
    }
}

fn text_is_lawful(text: &TextString)
    ensures { IsText text.now }
{
    are_bytes(text.bytes());
}

fn bytes_are_lawful(bytes: &ByteString)
    ensures { AreBytes bytes.now }
{
    are_bytes(bytes.bytes());
}

fn are_bytes(bytes: &[u8])
    ensures { AreBytes bytes.now }
{}
