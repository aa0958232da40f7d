//! The tests.
use crate::trial::{Shape, Trial, amiss_with};
use std::test::Fail;

/// One shard, and a window that forgets nothing here.
const SMALL: Shape = Shape {
    shards: 1,
    passes: 2,
    window: 1000,
};

const TWO_SHARDS: Shape = Shape {
    shards: 2,
    passes: 2,
    window: 1000,
};

/// Sixteen clients and eight that apply.
const LARGE: Shape = Shape {
    shards: 4,
    passes: 24,
    window: 20,
};

#[test]
fn all_shards_are_searched_at_once(rt: HostRuntime) -> Result<(), Fail> {
    assert_eq!(rt; amiss_with(&rt, rt.alloc(), Trial::AtOnce, TWO_SHARDS)?, "");
    Ok(())
}

#[test]
fn one_of_two_commits_at_once_conflicts(rt: HostRuntime) -> Result<(), Fail> {
    assert_eq!(rt; amiss_with(&rt, rt.alloc(), Trial::Race, SMALL)?, "");
    Ok(())
}

#[test]
fn many_threads_call_at_random(rt: HostRuntime) -> Result<(), Fail> {
    for seed in 1..3 {
        assert_eq!(rt; amiss_with(&rt, rt.alloc(), Trial::Crowd(seed), LARGE)?, "");
    }
    Ok(())
}
