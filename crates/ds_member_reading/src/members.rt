//! The members that requests other than queries have in common lines.
ghost use Rattle.std.specs.Prelude.{◌≡◌, ◌≤◌, codes, IfSome};
ghost use Rattle.ds_json_reading.specs.declared.refusal.Refusal.TheVariants as refusal;
ghost use Rattle.ds_json_reading.specs.Keys.{key_of};
ghost use Rattle.ds_line_reading.specs.TableLaws.{refused};
ghost use Rattle.ds_member_reading.specs.Forms.{flag_of, client_of, count_of, shard_of};

use ds_base::Key;
use ds_base::limits::MAX_CLIENT;
use ds_line_reading::{LineForm, LineKeyForm, Member, read_flag, read_natural};
use json::Reader;
use std::alloc::Global;

/// Who asks.
#[derive(Drop)]
pub struct ClientMember;

impl Member for ClientMember {
    type Item = u32;

    ghost called = { codes "client" };

    ghost reads = { client_of };

    ghost never_null = { refused refusal.Request };

    fn is_named(&self, name: &str) -> bool {
        name == "client"
    }

    fn read(&self, _alloc: Global, reader: &mut Reader<'_>, _depth: usize) -> Option<u32> {
        let number = read_natural(reader)?;
        match client(number) {
            Some(client) => Some(client),
            None => None,
        }
    }
}

/// The client of this number.
fn client(number: u64) -> Option<u32>
    ensures { IfSome result (λ client. (client ≡ number) × (client ≤ MAX_CLIENT)) }
{
    if number <= u64::from(MAX_CLIENT) {
        Some(number as u32)
    } else {
        None
    }
}

/// What a get or a delete is about.
#[derive(Drop)]
pub struct KeyMember;

impl Member for KeyMember {
    type Item = Key;

    ghost called = { codes "key" };

    ghost reads = { key_of };

    ghost never_null = { refused refusal.Key };

    fn is_named(&self, name: &str) -> bool {
        name == "key"
    }

    fn read(&self, alloc: Global, reader: &mut Reader<'_>, depth: usize) -> Option<Key> {
        LineKeyForm.read(alloc, reader, depth)
    }
}

/// Whether a transaction may touch several groups.
#[derive(Drop)]
pub struct XgMember;

impl Member for XgMember {
    type Item = bool;

    ghost called = { codes "xg" };

    ghost reads = { flag_of };

    ghost never_null = { refused refusal.Request };

    fn is_named(&self, name: &str) -> bool {
        name == "xg"
    }

    fn read(&self, _alloc: Global, reader: &mut Reader<'_>, _depth: usize) -> Option<bool> {
        read_flag(reader)
    }
}

/// How many ids are asked for.
#[derive(Drop)]
pub struct CountMember;

impl Member for CountMember {
    type Item = u64;

    ghost called = { codes "count" };

    ghost reads = { count_of };

    ghost never_null = { refused refusal.Request };

    fn is_named(&self, name: &str) -> bool {
        name == "count"
    }

    fn read(&self, _alloc: Global, reader: &mut Reader<'_>, _depth: usize) -> Option<u64> {
        let count = read_natural(reader)?;
        if count == 0 {
            return None;
        }
        Some(count)
    }
}

/// Which shard is to apply an entry.
#[derive(Drop)]
pub struct ShardMember;

impl Member for ShardMember {
    type Item = u64;

    ghost called = { codes "shard" };

    ghost reads = { shard_of };

    ghost never_null = { refused refusal.Request };

    fn is_named(&self, name: &str) -> bool {
        name == "shard"
    }

    fn read(&self, _alloc: Global, reader: &mut Reader<'_>, _depth: usize) -> Option<u64> {
        let shard = read_natural(reader)?;
        Some(shard)
    }
}
