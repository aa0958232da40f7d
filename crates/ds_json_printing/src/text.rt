//! Numbers, texts and byte strings as JSON.
ghost use Rattle.std.specs.Prelude.{◌≡◌, ℕ, ◌∷◌, ◌++◌, [], decimal, ◌^◌, ◌≤◌, ◌<◌, length, take, true};
ghost use Rattle.std.specs.Char.{digit_char};
ghost use Rattle.json.specs.Print.{escape_letter, escape_byte, escape, quoted};
ghost use Rattle.serde_json.specs.Data.{boolean};
ghost use Rattle.base64.specs.Engines.{standard};
ghost use Rattle.base64.specs.GeneralPurpose.{encode_of};
ghost use Rattle.serde_json.specs.Written.{compact_text, comma_if};
ghost use Rattle.ds_json_printing.specs.Printing.{natural, integer, base64_data};

use crate::output::Output;
use base64::engine::general_purpose::STANDARD;
use ds_base::TextString;

/// Puts a comma, where something stands before.
pub fn write_comma<O: Output>(later: bool, out: &mut O)
    ensures { O.Writes (comma_if later) out.old out.new }
{
    if later {
        out.put(b",");
    }
}

/// Puts an unsigned number.
pub fn write_natural<O: Output>(n: u64, out: &mut O)
    ensures { O.Writes (compact_text (natural n)) out.old out.new }
{
    out.put(itoa::Buffer::new().format(n).as_bytes());
}

/// Puts a signed number.
pub(crate) fn write_integer<O: Output>(n: i64, out: &mut O)
    ensures { O.Writes (compact_text (integer n)) out.old out.new }
{
    out.put(itoa::Buffer::new().format(n).as_bytes());
}

/// Puts a boolean.
pub fn write_boolean<O: Output>(b: bool, out: &mut O)
    ensures { O.Writes (compact_text (boolean b)) out.old out.new }
{
    if b {
        out.put(b"true");
    } else {
        out.put(b"false");
    }
}

/// Puts a text in quotes.
pub fn write_string<O: Output>(text: &[u8], out: &mut O)
    ensures { O.Writes (quoted text.now) out.old out.new }
{
    out.put(b"\"");
    write_escaped(text, out);
    out.put(b"\"");
}

/// Puts a text in quotes.
pub fn write_text<O: Output>(text: &TextString, out: &mut O)
    ensures { O.Writes (quoted text.now) out.old out.new }
{
    write_string(text.bytes(), out);
}

/// Puts bytes as base64 in quotes. Its symbols stand for themselves in a string, so they aren't looked at for escapes.
pub(crate) fn write_base64<O: Output>(bytes: &[u8], out: &mut O)
    ensures { O.Writes (compact_text (base64_data bytes.now)) out.old out.new }
{
    out.put(b"\"");
    write_symbols(bytes, out);
    out.put(b"\"");
}

// As many bytes as are encoded at once: groups of three, so that no padding stands between them.
const BYTES_AT_ONCE: usize = 192;

const SYMBOLS_AT_ONCE: usize = 256;

/// Puts the base64 of bytes, a piece at a time.
fn write_symbols<O: Output>(bytes: &[u8], out: &mut O)
    ensures { O.Writes (encode_of standard bytes.now) out.old out.new }
{
    let mut rest = bytes;
    while rest.len() > BYTES_AT_ONCE {
        write_piece(&rest[..BYTES_AT_ONCE], out);
        rest = &rest[BYTES_AT_ONCE..];
    }
    write_piece(rest, out);
}

fn write_piece<O: Output>(piece: &[u8], out: &mut O)
    requires { length piece.now ≤ BYTES_AT_ONCE }
    ensures { O.Writes (encode_of standard piece.now) out.old out.new }
{
    let mut symbols = [0; SYMBOLS_AT_ONCE];
    if let Ok(len) = STANDARD.encode_slice(piece, &mut symbols) {
        out.put(&symbols[..len]);
    }
}

/// Puts a text with its escapes: each run of bytes that stand for themselves is put as one piece.
pub(crate) fn write_escaped<O: Output>(text: &[u8], out: &mut O)
    ensures { O.Writes (escape text.now) out.old out.new }
{
    let mut rest = text;
    let mut run = plain_run(rest);
    while run < rest.len() {
        out.put(&rest[..run]);
        write_escape(rest[run], out);
        rest = &rest[run + 1..];
        run = plain_run(rest);
    }
    out.put(rest);
}

/// How many of the first bytes stand for themselves, as far as that is seen at once.
fn plain_run(text: &[u8]) -> usize
    ensures within { result ≤ length text.now }
    ensures in_memory { result < 2 ^ 63 }
    ensures plain { escape (take result text.now) ≡ take result text.now }
{
    let mut run = plain_chunks(text);
    while run < text.len() {
        if !is_plain(text[run]) {
            return run;
        }
        run += 1;
    }
    run
}

// As many bytes as are tested at once.
const CHUNK: usize = 16;

/// How many bytes there are in the first chunks that are plain.
fn plain_chunks(text: &[u8]) -> usize
    ensures within { result ≤ length text.now }
    ensures plain { escape (take result text.now) ≡ take result text.now }
{
    let mut run = 0;
    while text.len() - run >= CHUNK {
        if !are_plain(&text[run..run + CHUNK]) {
            return run;
        }
        run += CHUNK;
    }
    run
}

/// Whether all of these bytes stand for themselves. None is left out, so that they are tested side by side.
fn are_plain(bytes: &[u8]) -> bool
    ensures { result ≡ true → escape bytes.now ≡ bytes.now }
{
    let mut plain = true;
    for byte in bytes {
        plain = plain & is_plain(*byte);
    }
    plain
}

/// Whether the byte stands for itself in a string.
fn is_plain(byte: u8) -> bool
    ensures { result ≡ true → escape_byte byte ≡ byte ∷ [] }
{
    (byte >= b' ') & (byte != b'"') & (byte != b'\\')
}

/// Puts what stands for the byte in a string.
fn write_escape<O: Output>(byte: u8, out: &mut O)
    ensures { O.Writes (escape_byte byte) out.old out.new }
{
    let letter = letter_of(byte);
    if letter > 0 {
        out.put(&[b'\\', letter]);
    } else if byte < b' ' {
        out.put(&[b'\\', b'u', b'0', b'0', digit(byte / 16), digit(byte % 16)]);
    } else {
        out.put(&[byte]);
    }
}

/// The letter of the byte's short escape, or 0 where it has none.
fn letter_of(byte: u8) -> u8
    ensures { result ≡ escape_letter byte }
{
    match byte {
        b'"' | b'\\' => byte,
        8 => b'b',
        12 => b'f',
        b'\n' => b'n',
        b'\r' => b'r',
        b'\t' => b't',
        _ => 0,
    }
}

/// A hexadecimal digit, in lower case.
fn digit(n: u8) -> u8
    requires { n < 16 }
    ensures { result ≡ digit_char n }
{
    if n < 10 { b'0' + n } else { b'a' + (n - 10) }
}
