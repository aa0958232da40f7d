//! What is written of definitions that were read.
use ds_base::{ByteString, NoMemory};
use ds_indexdef::{Defs, can_write, read_yaml, write_yaml};
use std::alloc::Global;

/// The file with which a query on two properties is served, sorted by a third, in two ways.
const JOINED: &str = "indexes:
- kind: T
  properties:
  - name: a
  - name: c
- kind: T
  properties:
  - name: b
  - name: c
";

/// The same as it is written.
const JOINED_WRITTEN: &str = "indexes:
- kind: T
  ancestor: no
  properties:
  - name: a
    direction: asc
  - name: c
    direction: asc
- kind: T
  ancestor: no
  properties:
  - name: b
    direction: asc
  - name: c
    direction: asc
";

/// The file of a guest book, whose greetings are read below a key, the latest first.
const GREETINGS: &str = "indexes:
# Greetings of one guestbook, newest first.
- kind: Greeting
  ancestor: yes
  properties:
  - name: date
    direction: desc
";

const GREETINGS_WRITTEN: &str = "indexes:
- kind: Greeting
  ancestor: yes
  properties:
  - name: date
    direction: desc
";

/// The text that is written of the definitions, where they can be written.
fn written(alloc: Global, defs: &Defs) -> Result<ByteString, NoMemory> {
    if can_write(defs) {
        write_yaml(alloc, defs)
    } else {
        Ok(ByteString::new(alloc))
    }
}

/// Whether what is read of a text is written as the other.
fn is_written_as(alloc: Global, text: &str, other: &str) -> bool {
    let Ok(defs) = read_yaml(alloc, text.as_bytes()) else {
        return false;
    };
    match written(alloc, &defs) {
        Ok(text) => text.bytes() == other.as_bytes(),
        Err(_) => false,
    }
}

/// Files, and how what is read of each is written.
const FILES: [(&str, &str); 6] = [
    ("", "indexes:\n"),
    (JOINED, JOINED_WRITTEN),
    (JOINED_WRITTEN, JOINED_WRITTEN),
    (GREETINGS, GREETINGS_WRITTEN),
    (GREETINGS_WRITTEN, GREETINGS_WRITTEN),
    (
        "indexes:\n- kind: T\n  ancestor: yes\n  properties:\n  - name: __key__\n",
        "indexes:\n- kind: T\n  ancestor: yes\n  properties:\n  - name: __key__\n    direction: asc\n",
    ),
];

/// The first file that is written otherwise.
fn first_wrong(alloc: Global) -> Option<&'static str> {
    for row in &FILES {
        if !is_written_as(alloc, row.0, row.1) {
            return Some(row.0);
        }
    }
    None
}

#[test]
fn files_are_written(rt: HostRuntime) {
    assert_eq!(rt; first_wrong(rt.alloc()), None);
}
