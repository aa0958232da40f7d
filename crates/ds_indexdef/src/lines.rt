//! The lines of an index file, and what is left of one when its comment and the blanks at its ends are cut.
ghost use Rattle.std.specs.Prelude.{◌≡◌, ◌<◌, ◌∷◌, [], length, true};
ghost use Rattle.std.specs.List.{position};
ghost use Rattle.ds_indexdef.specs.Lines.{is_newline, is_blank, is_space, lines_of, before_comment, without_front, without_end, cut};

/// The first line of a text, without its newline, and the text behind it.
pub(crate) fn first_line(text: &[u8]) -> (&[u8], &[u8])
    requires { 0 < length text.now }
    ensures line { lines_of text.now ≡ result.0.now ∷ lines_of result.1.now }
    ensures shorter { length result.1.now < length text.now }
{
    match newline(text) {
        Some(i) => (&text[..i], &text[i + 1..]),
        None => (text, &text[text.len()..]),
    }
}

fn newline(text: &[u8]) -> Option<usize>
    ensures { result ≡ position is_newline text.now }
{
    text.iter().position(|b| *b == b'\n')
}

/// A line without its comment and without spaces, tabs and carriage returns at both ends.
pub(crate) fn cut(line: &[u8]) -> &[u8]
    ensures { result.now ≡ cut line.now }
{
    without_end(without_front(before_comment(line)))
}

// Whether the byte is a space or a tab.
fn is_blank(b: u8) -> bool
    ensures { result ≡ is_blank b }
{
    b == b' ' || b == b'\t'
}

// Whether the byte is a space, a tab or a carriage return.
fn is_space(b: u8) -> bool
    ensures { result ≡ is_space b }
{
    b == b' ' || b == b'\t' || b == b'\r'
}

// What stands before a `#` that is the first character or follows a space or a tab.
fn before_comment(line: &[u8]) -> &[u8]
    ensures { result.now ≡ before_comment true line.now }
{
    let mut fresh = true;
    for (i, b) in line.iter().enumerate() {
        if fresh && *b == b'#' {
            return &line[..i];
        }
        fresh = is_blank(*b);
    }
    line
}

// The text without spaces, tabs and carriage returns in front.
fn without_front(text: &[u8]) -> &[u8]
    ensures { result.now ≡ without_front is_space text.now }
{
    let mut left = text;
    while let [first, rest @ ..] = left {
        if !is_space(*first) {
            break;
        }
        left = rest;
    }
    left
}

// The text without spaces, tabs and carriage returns at its end.
fn without_end(text: &[u8]) -> &[u8]
    ensures { result.now ≡ without_end is_space text.now }
{
    let mut left = text;
    while let [rest @ .., last] = left {
        if !is_space(*last) {
            break;
        }
        left = rest;
    }
    left
}

/// The text without spaces and tabs in front.
pub(crate) fn without_blanks(text: &[u8]) -> &[u8]
    ensures { result.now ≡ without_front is_blank text.now }
{
    let mut left = text;
    while let [first, rest @ ..] = left {
        if !is_blank(*first) {
            break;
        }
        left = rest;
    }
    left
}
