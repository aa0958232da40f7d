//! Entities as replies show them, and as texts beside replies do.
ghost use Rattle.std.specs.Prelude.{◌≡◌, ◌++◌, false, OnOk, OnErr};
ghost use Rattle.serde_json.specs.Written.{compact_text, members_text};
ghost use Rattle.ds_json_printing.specs.Outputs.{WritesText};
ghost use Rattle.ds_reply.specs.EntityPrinting.{property_data, property_members, entity_data, optional_entity_data};

use core::mem::replace_with;
use ds_base::{Buffer, NoMemory};
use ds_entity::{Entity, Property};
use ds_json_printing::{Growing, Output, write_comma, write_key, write_text, write_values};
use std::alloc::AllocError;

/// Puts an entity at the end of `onto`, as a reply shows it: one JSON object in compact text. A refusal means out of memory, and leaves
/// the bytes as they were.
pub fn append_entity(entity: &Entity, onto: &mut Buffer) -> Result<(), NoMemory>
    ensures ok { OnOk result (onto.new.bytes ≡ onto.old.bytes ++ compact_text (entity_data entity.now)) }
    ensures err { OnErr result (onto.new.bytes ≡ onto.old.bytes) }
{
    let length = onto.bytes().len();
    let refused = replace_with(onto, entity, entity_behind);
    if refused {
        onto.truncate(length);
        return Err(AllocError);
    }
    Ok(())
}

/// Puts an entity.
pub fn write_entity<O: Output>(entity: &Entity, out: &mut O)
    ensures { O.Writes (compact_text (entity_data entity.now)) out.old out.new }
{
    out.put(b"{\"key\":");
    write_key(entity.key(), out);
    out.put(b",\"properties\":{");
    write_properties(entity.properties().as_slice(), out);
    out.put(b"}");
}

/// Puts an entity, or null.
pub fn write_optional_entity<O: Output>(entity: &Option<Entity>, out: &mut O)
    ensures { O.Writes (compact_text (optional_entity_data entity.now)) out.old out.new }
{
    match entity {
        Some(entity) => write_entity(entity, out),
        None => out.put(b"null"),
    }
}

/// Puts the properties as members and the closing brace.
fn write_properties<O: Output>(properties: &[Property], out: &mut O)
    ensures { O.Writes (members_text false (property_members properties.now)) out.old out.new }
{
    let mut later = false;
    for property in properties {
        write_comma(later, out);
        write_text(&property.name, out);
        out.put(b":");
        write_property(property, out);
        later = true;
    }
    out.put(b"}");
}

/// Puts a property's values, and whether they are unindexed.
fn write_property<O: Output>(property: &Property, out: &mut O)
    ensures { O.Writes (compact_text (property_data property.now)) out.old out.new }
{
    if property.indexed {
        write_values(property.values.as_slice(), out);
    } else {
        out.put(b"{\"unindexed\":");
        write_values(property.values.as_slice(), out);
        out.put(b"}");
    }
}

/// Puts the entity behind the buffer's bytes, and tells whether a piece of it was refused.
fn entity_behind(buffer: Buffer, entity: &Entity) -> (Buffer, bool)
    ensures { WritesText (compact_text (entity_data entity.now)) (record { buffer = buffer; refused = false })
        (record { buffer = result.0; refused = result.1 }) }
{
    let mut out = Growing {
        buffer,
        refused: false,
    };
    write_entity(entity, &mut out);
    (out.buffer, out.refused)
}
