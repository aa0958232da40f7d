//! Each kernel at every length up to two whole chunks and a rest, with the place that it looks for
//! at every place: in each lane of each chunk, and in the rest. What lies past the length would
//! change the answer if it were read. Each test asserts that no length is wrong.
ghost use Rattle.std.specs.Prelude.{◌≤◌};

use ds_lanes::{common_prefix, complement, first_visible, first_zero};

const MOST: usize = 130;

fn finds_zeros(len: usize) -> bool
    requires { len ≤ 130 }
{
    let mut bytes = [0; MOST];
    for i in 0..len {
        bytes[i] = 255;
    }
    let mut holds = first_zero(&bytes[..len]) == len;
    for back in 0..len {
        let place = len - 1 - back;
        bytes[place] = 0;
        holds = first_zero(&bytes[..len]) == place && holds;
    }
    holds
}

fn finds_all_zeros() -> bool {
    for len in 0..=MOST {
        if !finds_zeros(len) {
            return false;
        }
    }
    true
}

fn measures_prefixes(len: usize) -> bool
    requires { len ≤ 130 }
{
    let ours = [7; MOST];
    let mut theirs = [7; MOST];
    let mut holds = common_prefix(&ours[..len], &theirs) == len;
    holds = common_prefix(&ours, &theirs[..len]) == len && holds;
    for back in 0..len {
        let place = len - 1 - back;
        theirs[place] = 6;
        holds = common_prefix(&ours[..len], &theirs[..len]) == place && holds;
    }
    holds
}

fn measures_all_prefixes() -> bool {
    for len in 0..=MOST {
        if !measures_prefixes(len) {
            return false;
        }
    }
    true
}

/// Of so many entries one half has ended at `at`, and the other begins after it, at `next`.
fn finds_visible(at: u64, next: u64, len: usize) -> bool
    requires { len ≤ 130 }
{
    let mut from = [at; MOST];
    let mut to = [at; MOST];
    for i in 0..MOST {
        if i % 2 == 0 || i >= len {
            to[i] = next;
        }
        if i % 2 == 0 && i < len {
            from[i] = next;
        }
    }
    let mut holds = first_visible(&from[..len], &to[..len], at) == len;
    for back in 0..len {
        let place = len - 1 - back;
        from[place] = at;
        to[place] = next;
        holds = first_visible(&from[..len], &to[..len], at) == place && holds;
    }
    first_visible(&from[..len], &to[..len], u64::MAX) == len && holds
}

fn finds_all_visible(at: u64, next: u64) -> bool {
    for len in 0..=MOST {
        if !finds_visible(at, next, len) {
            return false;
        }
    }
    true
}

/// Whether the first bytes are turned, and the others left.
fn turns(source: &[u8; MOST], len: usize) -> bool
    requires { len ≤ 130 }
{
    let mut turned = [1; MOST];
    complement(&mut turned[..len], &source[..len]);
    let mut holds = true;
    for i in 0..MOST {
        let wanted = if i < len { 255 - source[i] } else { 1 };
        holds = turned[i] == wanted && holds;
    }
    holds
}

fn turns_all(source: &[u8; MOST]) -> bool {
    for len in 0..=MOST {
        if !turns(source, len) {
            return false;
        }
    }
    true
}

/// The lowest number of 64 bits whose highest bit is set.
const TOP: u64 = 1 << 63;

#[test]
fn turns_bytes_round(rt: HostRuntime) {
    let mut source = [0; MOST];
    for i in 0..MOST {
        source[i] = if i % 2 == 0 { i as u8 } else { 255 - i as u8 };
    }
    assert!(rt; turns_all(&source));
}

#[test]
fn lanes_are_as_plain_loops(rt: HostRuntime) {
    assert!(rt; finds_all_zeros());
    assert!(rt; measures_all_prefixes());
    assert!(rt; finds_all_visible(0, 1));
    assert!(rt; finds_all_visible(TOP - 1, TOP));
    assert!(rt; finds_all_visible(TOP, TOP + 1));
    assert!(rt; finds_all_visible(u64::MAX - 1, u64::MAX));
}
