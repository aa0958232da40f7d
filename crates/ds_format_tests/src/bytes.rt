//! Encodings both ways, and bytes that are no encoding.
use ds_base::{Buffer, ByteString, Elem, Elems, Ident, IndexValue, Key, NoMemory, TextString};
use ds_bytes::{decode, decode_key, encode, encode_key};
use std::alloc::{AllocError, Global};
use std::test::Fail;

fn is_value(alloc: Global, bytes: &[u8], descending: bool) -> Result<bool, NoMemory> {
    Ok(decode(alloc, bytes, descending)?.is_some())
}

/// Whether the bytes are read as this value, and so many are left behind it.
fn is_read_as(
    alloc: Global,
    value: &IndexValue,
    descending: bool,
    bytes: &[u8],
    rest: usize,
) -> Result<bool, NoMemory> {
    match decode(alloc, bytes, descending)? {
        None => Ok(false),
        Some(found) => Ok(found.value == *value && found.rest == rest),
    }
}

/// Whether what was written are these bytes, and they are read as the value before anything else, and are no encoding without the last of
/// them.
fn agrees_with(
    alloc: Global,
    value: &IndexValue,
    descending: bool,
    bytes: &[u8],
    written: &mut Buffer,
) -> Result<bool, NoMemory> {
    encode(value, descending, written)?;
    if written.bytes() != bytes || is_value(alloc, without_last(bytes), descending)? {
        return Ok(false);
    }
    written.append(b"rest")?;
    is_read_as(alloc, value, descending, written.bytes(), bytes.len())
}

fn agrees(
    alloc: Global,
    value: &IndexValue,
    descending: bool,
    bytes: &[u8],
) -> Result<bool, NoMemory> {
    let mut written = Buffer::new(alloc);
    agrees_with(alloc, value, descending, bytes, &mut written)
}

fn is_key(alloc: Global, bytes: &[u8], descending: bool) -> Result<bool, NoMemory> {
    Ok(decode_key(alloc, bytes, descending)?.is_some())
}

fn is_read_as_key(
    alloc: Global,
    key: &Key,
    descending: bool,
    bytes: &[u8],
    rest: usize,
) -> Result<bool, NoMemory> {
    match decode_key(alloc, bytes, descending)? {
        None => Ok(false),
        Some(found) => Ok(found.key == *key && found.rest == rest),
    }
}

/// The same of a key.
fn agrees_as_key_with(
    alloc: Global,
    key: &Key,
    descending: bool,
    bytes: &[u8],
    written: &mut Buffer,
) -> Result<bool, NoMemory> {
    encode_key(key, descending, written)?;
    if written.bytes() != bytes || is_key(alloc, without_last(bytes), descending)? {
        return Ok(false);
    }
    written.append(b"rest")?;
    is_read_as_key(alloc, key, descending, written.bytes(), bytes.len())
}

fn agrees_as_key(
    alloc: Global,
    key: &Key,
    descending: bool,
    bytes: &[u8],
) -> Result<bool, NoMemory> {
    let mut written = Buffer::new(alloc);
    agrees_as_key_with(alloc, key, descending, bytes, &mut written)
}

fn without_last(bytes: &[u8]) -> &[u8] {
    match bytes.split_last() {
        None => bytes,
        Some((_, front)) => front,
    }
}

fn elem(alloc: Global, kind: &str, ident: Ident) -> Result<Elem, NoMemory> {
    let kind = TextString::of(alloc, kind)?;
    Ok(Elem { kind, ident })
}

/// The key of a path, in a namespace.
fn key(alloc: Global, namespace: &str, path: Elems) -> Result<Key, NoMemory> {
    match Key::within(TextString::of(alloc, namespace)?, path) {
        Ok(key) => Ok(key),
        Err(_) => Err(AllocError),
    }
}

/// The key [["Task","a"]], in a namespace.
fn task(alloc: Global, namespace: &str) -> Result<Key, NoMemory> {
    let ident = Ident::Name(TextString::of(alloc, "a")?);
    let path = Elems::from(vec![in alloc; elem(alloc, "Task", ident)?]?);
    key(alloc, namespace, path)
}

/// The key [["Guestbook","default"],["Greeting",4503599627370496]].
fn greeting(alloc: Global) -> Result<Key, NoMemory> {
    let ident = Ident::Name(TextString::of(alloc, "default")?);
    let book = elem(alloc, "Guestbook", ident)?;
    let greeting = elem(alloc, "Greeting", Ident::Id(4_503_599_627_370_496))?;
    key(alloc, "", Elems::from(vec![in alloc; book, greeting]?))
}

/// Numbers, their directions and their bytes.
const NUMBERS: [(i64, bool, &[u8]); 6] = [
    (5, false, b"\x20\x80\x00\x00\x00\x00\x00\x00\x05"),
    (5, true, b"\xdf\x7f\xff\xff\xff\xff\xff\xff\xfa"),
    (-1, false, b"\x20\x7f\xff\xff\xff\xff\xff\xff\xff"),
    (2000, true, b"\xdf\x7f\xff\xff\xff\xff\xff\xf8\x2f"),
    (i64::MIN, false, b"\x20\x00\x00\x00\x00\x00\x00\x00\x00"),
    (i64::MAX, false, b"\x20\xff\xff\xff\xff\xff\xff\xff\xff"),
];

fn numbers_agree(alloc: Global, rows: &[(i64, bool, &[u8])]) -> Result<bool, NoMemory> {
    for row in rows {
        if !agrees(alloc, &IndexValue::Num(row.0), row.1, row.2)? {
            return Ok(false);
        }
    }
    Ok(true)
}

/// Texts, their directions and their bytes.
const SEQUENCES: [(&[u8], bool, &[u8]); 6] = [
    (b"a", false, b"\x40a\x00\x01"),
    (b"a", true, b"\xbf\x9e\xff\xfe"),
    (b"\x00", false, b"\x40\x00\xff\x00\x01"),
    (b"\x00\xff", true, b"\xbf\xff\x00\x00\xff\xfe"),
    (b"", false, b"\x40\x00\x01"),
    (
        b"aaaaaaaaaaaaaaaaaaaaaaaaaaaaaaaaaaaaaaaaaaaaaaaaaaaaaaaaaaaaaaaaaaaaaaaa\x00b",
        false,
        b"\x40aaaaaaaaaaaaaaaaaaaaaaaaaaaaaaaaaaaaaaaaaaaaaaaaaaaaaaaaaaaaaaaaaaaaaaaa\x00\xffb\x00\x01",
    ),
];

fn sequence_agrees(
    alloc: Global,
    text: &[u8],
    descending: bool,
    bytes: &[u8],
) -> Result<bool, NoMemory> {
    let value = IndexValue::Bytes(ByteString::of(alloc, text)?);
    agrees(alloc, &value, descending, bytes)
}

fn sequences_agree(alloc: Global, rows: &[(&[u8], bool, &[u8])]) -> Result<bool, NoMemory> {
    for row in rows {
        if !sequence_agrees(alloc, row.0, row.1, row.2)? {
            return Ok(false);
        }
    }
    Ok(true)
}

fn task_agrees(
    alloc: Global,
    namespace: &str,
    descending: bool,
    bytes: &[u8],
) -> Result<bool, NoMemory> {
    let task = task(alloc, namespace)?;
    agrees_as_key(alloc, &task, descending, bytes)
}

fn task_agrees_as_value(alloc: Global, bytes: &[u8]) -> Result<bool, NoMemory> {
    let value = IndexValue::Key(task(alloc, "")?);
    agrees(alloc, &value, false, bytes)
}

fn greeting_agrees(alloc: Global, bytes: &[u8]) -> Result<bool, NoMemory> {
    let greeting = greeting(alloc)?;
    agrees_as_key(alloc, &greeting, false, bytes)
}

const TASK: &[u8] = b"\x02Task\x00\x01\x20a\x00\x01\x01";

const TURNED_TASK: &[u8] = b"\xfd\xab\x9e\x8c\x94\xff\xfe\xdf\x9e\xff\xfe\xfe";

const TASK_VALUE: &[u8] = b"\x50\x02Task\x00\x01\x20a\x00\x01\x01";

const TASK_IN_NS: &[u8] = b"\x03n.s\x00\x01\x02Task\x00\x01\x20a\x00\x01\x01";

const GREETING: &[u8] =
    b"\x02Guestbook\x00\x01\x20default\x00\x01\x02Greeting\x00\x01\x10\x00\x10\x00\x00\x00\x00\x00\x00\x01";

#[test]
fn writes_and_reads_keys(rt: HostRuntime) -> Result<(), Fail> {
    let alloc = rt.alloc();
    assert!(rt; task_agrees_as_value(alloc, TASK_VALUE)?);
    assert!(rt; task_agrees(alloc, "", false, TASK)?);
    assert!(rt; task_agrees(alloc, "", true, TURNED_TASK)?);
    assert!(rt; task_agrees(alloc, "n.s", false, TASK_IN_NS)?);
    assert!(rt; greeting_agrees(alloc, GREETING)?);
    Ok(())
}

/// Why bytes are none, and the bytes.
type Row = (&'static str, &'static [u8]);

const NO_VALUES: [Row; 7] = [
    ("nothing", b""),
    ("no class", b"\x11"),
    ("a descending class", b"\xef"),
    ("no truth value", b"\x30\x02"),
    ("a zero byte before neither 255 nor 1", b"\x40a\x00\x02"),
    ("a text without end", b"\x40a\x00\xff"),
    ("no key", b"\x50\x01"),
];

/// Which of the bytes are a value.
fn first_value<'a>(alloc: Global, rows: &'a [Row]) -> Result<Option<&'a str>, NoMemory> {
    for row in rows {
        if is_value(alloc, row.1, false)? {
            return Ok(Some(row.0));
        }
    }
    Ok(None)
}

const NO_KEYS: [Row; 12] = [
    ("no element", b"\x01"),
    (
        "an id of 0",
        b"\x02T\x00\x01\x10\x00\x00\x00\x00\x00\x00\x00\x00\x01",
    ),
    (
        "an id of 2^63",
        b"\x02T\x00\x01\x10\x80\x00\x00\x00\x00\x00\x00\x00\x01",
    ),
    ("an empty kind", b"\x02\x00\x01\x20a\x00\x01\x01"),
    ("an empty name", b"\x02T\x00\x01\x20\x00\x01\x01"),
    (
        "a kind that is no text",
        b"\x02\xc3\x00\x01\x20a\x00\x01\x01",
    ),
    (
        "a name that is no text",
        b"\x02T\x00\x01\x20\xff\x00\x01\x01",
    ),
    (
        "an identifier of no kind",
        b"\x02T\x00\x01\x30a\x00\x01\x01",
    ),
    ("no end", b"\x02T\x00\x01\x20a\x00\x01\x03"),
    (
        "the default namespace announced",
        b"\x03\x00\x01\x02T\x00\x01\x20a\x00\x01\x01",
    ),
    (
        "a namespace of other characters",
        b"\x03a b\x00\x01\x02T\x00\x01\x20a\x00\x01\x01",
    ),
    ("a namespace alone", b"\x03a\x00\x01\x01"),
];

/// Which of the bytes are a key.
fn first_key<'a>(alloc: Global, rows: &'a [Row]) -> Result<Option<&'a str>, NoMemory> {
    for row in rows {
        if is_key(alloc, row.1, false)? {
            return Ok(Some(row.0));
        }
    }
    Ok(None)
}

#[test]
fn values_are_written_and_read(rt: HostRuntime) -> Result<(), Fail> {
    let alloc = rt.alloc();
    assert!(rt; numbers_agree(alloc, &NUMBERS)?);
    assert!(rt; sequences_agree(alloc, &SEQUENCES)?);
    assert!(rt; agrees(alloc, &IndexValue::Null, false, b"\x10")?);
    assert!(rt; agrees(alloc, &IndexValue::Bool(false), false, b"\x30\x00")?);
    assert!(rt; agrees(alloc, &IndexValue::Bool(true), true, b"\xcf\xfe")?);
    Ok(())
}

#[test]
fn what_is_none_is_refused(rt: HostRuntime) -> Result<(), Fail> {
    assert_eq!(rt; first_value(rt.alloc(), &NO_VALUES)?, None);
    assert_eq!(rt; first_key(rt.alloc(), &NO_KEYS)?, None);
    Ok(())
}
