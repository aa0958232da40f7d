//! The items of a list of words.
ghost use Rattle.std.specs.Prelude.{◌≡◌, ◌<◌, ◌≤◌, ◌+◌, drop, length, map, Some, None, option_map, IfSome, MatchOption};
ghost use Rattle.std.specs.String.{string_bytes};
ghost use Rattle.ds_words.specs.Form.{in_front, is_option, is_value, item_of, items_of};
ghost use Rattle.ds_words.specs.Items.{seen};

/// An option's name, the value that it is given, and in how many words.
#[derive(Clone, Copy)]
pub(crate) struct Item<'a> {
    pub name: &'a str,
    pub value: &'a str,
    pub words: usize,
}

/// The first item of these words; `None` where they don't begin with one.
pub(crate) fn first_item(words: &[String]) -> Option<Item<'_>>
    requires { 0 < length words.now }
    ensures few { IfSome result (λ item. item.words ≤ 2) }
    ensures items { MatchOption result (items_of (map string_bytes words.now) ≡ None)
        (λ item. (0 < item.words) × (item.words ≤ length words.now) × (items_of (map string_bytes words.now)
        ≡ in_front (Some (seen item)) (items_of (map string_bytes (drop item.words words.now))))) }
{
    let first = words[0].as_str();
    match first.split_once('=') {
        Some((name, value)) => item_of(name, value, 1),
        None => match words.get(1) {
            Some(value) => item_of(first, value.as_str(), 2),
            None => None,
        },
    }
}

/// The item of a name and a value; `None` where the name is none of an option or the value is no value.
fn item_of<'a>(name: &'a str, value: &'a str, words: usize) -> Option<Item<'a>>
    ensures item { option_map seen result ≡ item_of name.now value.now }
    ensures words { IfSome result (λ item. item.words ≡ words) }
{
    if is_option(name) && is_value(value.as_bytes()) {
        Some(Item { name, value, words })
    } else {
        None
    }
}

fn is_option(name: &str) -> bool
    ensures { result ≡ is_option name.now }
{
    name == "--indexes" || name == "--shards" || name == "--appliers" || name == "--window"
}

fn is_value(value: &[u8]) -> bool
    ensures { result ≡ is_value value.now }
{
    match value.first() {
        Some(first) => *first != b'-',
        None => false,
    }
}
