//! Texts of about 200 definitions.
use ds_base::ByteString;
use ds_indexdef::{YamlRefused, read_yaml};
use std::alloc::{AllocError, Global};
use std::test::Fail;

/// Puts the five lines of the definition with this number behind a text.
fn add_definition(alloc: Global, number: u32, text: &mut ByteString) -> Result<(), AllocError> {
    let entry = format!(in alloc;
        "- kind: T\n  ancestor: yes\n  properties:\n  - name: p{number}\n  - name: q\n"
    )?;
    text.append(entry.as_bytes())
}

/// Puts the lines of an index file with so many definitions behind a text, and then these.
fn add_file(alloc: Global, count: u32, end: &str, text: &mut ByteString) -> Result<(), AllocError> {
    text.append(b"indexes:\n")?;
    for number in 0..count {
        add_definition(alloc, number, text)?;
    }
    text.append(end.as_bytes())
}

/// How many definitions stand in a text, or 1,000 and the line that it is refused with.
fn told(alloc: Global, text: &ByteString) -> u64 {
    match read_yaml(alloc, text.bytes()) {
        Ok(defs) => defs.len() as u64,
        Err(YamlRefused::Line(n)) => n.saturating_add(1_000),
        Err(YamlRefused::NoMemory) => 0,
    }
}

/// How many definitions of five lines there are, what stands behind them, and what is told.
const ROWS: [(u32, &str, u64); 12] = [
    (199, "", 199),
    (200, "", 200),
    (200, "# end\n", 200),
    (201, "", 2_006),
    (201, "\n\n- kind: U\n", 2_006),
    (
        200,
        "- kind: T\n  ancestor: yes\n  properties:\n  - name: p7\n  - name: q\n    direction: asc\n",
        200,
    ),
    (200, "- kind: T\n  properties:\n  - name: p7\n", 200),
    (
        200,
        "- kind: T\n  ancestor: yes\n  properties:\n  - name: p7\n",
        2_005,
    ),
    (
        200,
        "- kind: T\n  ancestor: yes\n  properties:\n  - name: p7\n    direction: desc\n# c\n",
        2_006,
    ),
    (
        200,
        "- kind: T\n  ancestor: yes\n  properties:\n  - name: p7\nx\n",
        2_006,
    ),
    (
        200,
        "- kind: T\n  ancestor: yes\n  properties:\n  - name: p7\n    direction: desc\nx\n",
        2_006,
    ),
    (
        200,
        "- kind: T\n  ancestor: yes\n  properties:\n  - name: x\n\nx\n",
        2_005,
    ),
];

fn is_told(alloc: Global, row: &(u32, &str, u64)) -> Result<bool, AllocError> {
    let mut text = ByteString::new(alloc);
    add_file(alloc, row.0, row.1, &mut text)?;
    Ok(told(alloc, &text) == row.2)
}

/// The number of the first row of which something else is told.
fn first_wrong(alloc: Global) -> Result<Option<usize>, AllocError> {
    for (number, row) in ROWS.iter().enumerate() {
        if !is_told(alloc, row)? {
            return Ok(Some(number));
        }
    }
    Ok(None)
}

#[test]
fn at_most_200_are_taken(rt: HostRuntime) -> Result<(), Fail> {
    assert_eq!(rt; first_wrong(rt.alloc())?, None);
    Ok(())
}
