//! The hash of texts whose hashes its authors publish, and the shards of two entity groups.
use ds_base::{Elem, Elems, Ident, Key, NoMemory, TextString};
use ds_log::{fnv1a, shard_of};
use std::alloc::Global;
use std::test::Fail;

fn group(alloc: Global, kind: &str, name: &str) -> Result<Key, Fail> {
    let kind = TextString::of(alloc, kind)?;
    let ident = Ident::Name(TextString::of(alloc, name)?);
    Ok(Key::new(alloc, Elems::from(vec![in alloc; Elem { kind, ident }]?))?)
}

/// The shards of a group where there are 1, 7 and 16.
fn shards(alloc: Global, group: &Key) -> Result<[u32; 3], NoMemory> {
    let of_seven = shard_of(alloc, group, 7)?;
    let of_sixteen = shard_of(alloc, group, 16)?;
    Ok([shard_of(alloc, group, 1)?, of_seven, of_sixteen])
}

fn shards_of(alloc: Global, kind: &str, name: &str) -> Result<[u32; 3], Fail> {
    let group = group(alloc, kind, name)?;
    Ok(shards(alloc, &group)?)
}

#[test]
fn hashes_tell_shards_apart(rt: HostRuntime) -> Result<(), Fail> {
    assert!(rt; fnv1a(b"") == 0xcbf2_9ce4_8422_2325);
    assert!(rt; fnv1a(b"a") == 0xaf63_dc4c_8601_ec8c);
    assert!(rt; fnv1a(b"foobar") == 0x8594_4171_f739_67e8);
    assert!(rt; shards_of(rt.alloc(), "Task", "a")? == [0, 3, 2]);
    assert!(rt; shards_of(rt.alloc(), "Guestbook", "default")? == [0, 5, 2]);
    Ok(())
}
