//! Texts that are index files, with how many definitions they give, and texts that aren't, with the line that is refused.
use ds_indexdef::{Defs, YamlRefused, read_yaml};
use std::alloc::Global;

/// The line that a text is refused with; 0 where it is read.
fn refused(alloc: Global, text: &[u8]) -> u64 {
    match read_yaml(alloc, text) {
        Ok(_) => 0,
        Err(YamlRefused::Line(n)) => n,
        Err(YamlRefused::NoMemory) => u64::MAX,
    }
}

/// How many definitions stand in a text; 1,000 where it isn't read.
fn count(alloc: Global, text: &str) -> usize {
    match read_yaml(alloc, text.as_bytes()) {
        Ok(defs) => defs.len(),
        Err(_) => 1_000,
    }
}

/// The number of the first text that is refused with another line than is told beside it.
fn first_refused_elsewhere(alloc: Global, rows: &[(&[u8], u64)]) -> Option<usize> {
    for (number, row) in rows.iter().enumerate() {
        if refused(alloc, row.0) != row.1 {
            return Some(number);
        }
    }
    None
}

/// The first text that gives another number of definitions than is told beside it.
fn first_counted_otherwise<'a>(
    alloc: Global,
    rows: &'a [(&'static str, usize)],
) -> Option<&'a str> {
    for row in rows {
        if count(alloc, row.0) != row.1 {
            return Some(row.0);
        }
    }
    None
}

/// Texts, and the line that each is refused with; 0 where it is read.
const LINES: [(&[u8], u64); 41] = [
    // lines that are out of their place, or twice
    (b"kind: T", 1),
    (b"- kind: T\n", 1),
    (b"indexes :\n", 1),
    (b"indexes:\nindexes:\n", 2),
    (b"indexes:\n- kind: T\n  order: yes\n", 3),
    (b"indexes:\n- kind: T\n  ancestor: maybe\n", 3),
    (
        b"indexes:\n- kind: T\n  ancestor: yes\n  ancestor: yes\n",
        4,
    ),
    (b"indexes:\n- kind: T\n- kind: U\n", 3),
    (b"indexes:\n- kind: T\n  properties: a\n", 3),
    (b"indexes:\n- kind: T\n  properties:\n  direction: asc\n", 4),
    (b"indexes:\n- kind: T\n  properties:\n- kind: U\n", 4),
    (
        b"indexes:\n- kind: T\n  properties:\n  - name: a\n    direction: up\n",
        5,
    ),
    (
        b"indexes:\n- kind: T\n  properties:\n  - name: a\n    direction: asc\n    direction: asc\n",
        6,
    ),
    (
        b"indexes:\n- kind: T\n  properties:\n  - name: a\n  x\n  - name: b\n",
        5,
    ),
    // kinds and names
    (b"indexes:\n- kind: \"T\"\n", 2),
    (b"indexes:\n- kind: 'T'\n", 2),
    (b"indexes:\n- kind: T#\n", 2),
    (b"indexes:\n- kind: T U\n", 2),
    (b"indexes:\n- kind:T\n", 2),
    (b"indexes:\n-kind: T\n", 2),
    (b"indexes:\n- kind: __T__\n", 2),
    (b"indexes:\n- kind: __key__\n", 2),
    (b"indexes:\n- kind: T\n  properties:\n  - name: __a__\n", 4),
    (
        b"indexes:\n- kind: T\n  properties:\n  - name: a\n  - name: a\n",
        5,
    ),
    (
        b"indexes:\n- kind: T\n  properties:\n  - name: a\n  - name: b\n  - name: a\n    direction: desc\n",
        6,
    ),
    (
        b"indexes:\n- kind: T\n  properties:\n  - name: __key__\n  - name: a\n",
        5,
    ),
    (
        b"indexes:\n- kind: T\n  properties:\n  - name: a\n  - name: __key__\n    direction: desc\n",
        0,
    ),
    // texts that end early
    (b"", 0),
    (b"\n\n", 0),
    (b"# nothing", 0),
    (b"indexes:", 0),
    (b"indexes:\n- kind: T", 3),
    (b"indexes:\n- kind: T\n", 3),
    (b"indexes:\n- kind: T\n\n", 4),
    (b"indexes:\n- kind: T\n  ancestor: no\n", 4),
    (b"indexes:\n- kind: T\n  properties:\n", 4),
    (b"indexes:\n- kind: T\n  properties:\n  - name: a", 0),
    // bytes that are no text, in a line of their own or among others
    (b"\xff", 1),
    (b"indexes:\n# \xc3\n", 2),
    (b"indexes:\n- kind: \xc3\xa9\n", 3),
    (b"indexes:\n\n\n- kind: \xc3\n", 4),
];

/// Texts, and how many definitions each gives.
const COUNTED: [(&str, usize); 8] = [
    (
        "# c\n\r\n\tindexes:\t# c\r\n-\t kind:\tT\r\n\n  ancestor: no #\n properties: \n-  name:  a\n-  name: b\t\r",
        1,
    ),
    ("indexes:\n- kind: T\n  properties:\n  - name: a\n", 0),
    (
        "indexes:\n- kind: T\n  properties:\n  - name: a\n    direction: desc\n",
        0,
    ),
    ("indexes:\n- kind: T\n  properties:\n  - name: __key__\n", 0),
    (
        "indexes:\n- kind: T\n  properties:\n  - name: __key__\n    direction: desc\n",
        1,
    ),
    (
        "indexes:\n- kind: T\n  ancestor: yes\n  properties:\n  - name: __key__\n",
        1,
    ),
    (
        "indexes:\n- kind: T\n  ancestor: yes\n  properties:\n  - name: a\n\
        - kind: T\n  ancestor: yes\n  properties:\n  - name: a\n  - name: __key__\n    direction: asc\n",
        1,
    ),
    (
        "indexes:\n- kind: T\n  properties:\n  - name: a\n  - name: b\n- kind: T\n  properties:\n  - name: b\n  - name: a\n",
        2,
    ),
];

#[test]
fn index_files_are_read(rt: HostRuntime) {
    assert_eq!(rt; first_refused_elsewhere(rt.alloc(), &LINES), None);
    assert_eq!(rt; first_counted_otherwise(rt.alloc(), &COUNTED), None);
}
