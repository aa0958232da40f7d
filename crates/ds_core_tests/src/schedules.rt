//! Schedules: the same requests, and the replies that the order of the steps makes.
use crate::scripts::{Line, replies_are};
use ds_core::Step;
use std::alloc::Global;
use std::test::Fail;

/// How many shards there are, the steps, in parts, and the replies, in parts too.
type Schedule = (
    u32,
    &'static [&'static [Line<'static>]],
    &'static [&'static str],
);

const APPLY: Step = Step::Apply { shard: 0 };

const VIEW: Step = Step::View { shard: 0 };

const PUT_ZERO: &str =
    r#"{"op":"put","client":0,"entity":{"key":[["T","a"]],"properties":{"v":0}}}"#;

const PUT_ONE: &str =
    r#"{"op":"put","client":0,"entity":{"key":[["T","a"]],"properties":{"v":1}}}"#;

const PUT_TWO: &str =
    r#"{"op":"put","client":1,"entity":{"key":[["T","a"]],"properties":{"v":2}}}"#;

const PUT_OTHER: &str =
    r#"{"op":"put","client":0,"entity":{"key":[["T","b"]],"properties":{"v":0}}}"#;

const GET_BY_ZERO: &str = r#"{"op":"get","client":0,"key":[["T","a"]]}"#;

const GET_BY_ONE: &str = r#"{"op":"get","client":1,"key":[["T","a"]]}"#;

const BEGIN_ONE: &str = r#"{"op":"begin","client":1}"#;

/// Two transactions read and write one group, up to their Commits.
const TWO_MEET: [Line<'static>; 12] = [
    (0, Step::Commit, PUT_ZERO),
    (0, Step::Touch, r#"{"op":"begin","client":0}"#),
    (0, Step::Touch, GET_BY_ZERO),
    (0, APPLY, ""),
    (0, VIEW, ""),
    (0, Step::Touch, PUT_ONE),
    (1, Step::Touch, BEGIN_ONE),
    (1, Step::Touch, GET_BY_ONE),
    (1, VIEW, ""),
    (1, Step::Touch, PUT_TWO),
    (0, Step::Touch, r#"{"op":"commit","client":0}"#),
    (1, Step::Touch, r#"{"op":"commit","client":1}"#),
];

const TWO_MEET_REPLIES: &str = r#"{"client":0,"commit":1,"key":[["T","a"]],"line":1,"ok":"put"}
{"client":0,"line":2,"ok":"begin"}
{"client":0,"entity":{"key":[["T","a"]],"properties":{"v":0}},"line":3,"ok":"get","place":1}
{"client":0,"key":[["T","a"]],"line":4,"ok":"put","place":1}
{"client":1,"line":5,"ok":"begin"}
{"client":1,"entity":{"key":[["T","a"]],"properties":{"v":0}},"line":6,"ok":"get","place":1}
{"client":1,"key":[["T","a"]],"line":7,"ok":"put","place":1}
"#;

const SCHEDULES: [Schedule; 7] = [
    // of two transactions that meet the one whose Commit comes first is committed, and the other conflicts with it
    (
        1,
        &[&TWO_MEET, &[(0, Step::Commit, ""), (1, Step::Commit, "")]],
        &[
            TWO_MEET_REPLIES,
            r#"{"client":0,"commit":2,"line":8,"ok":"commit"}
{"client":1,"commit":2,"error":13,"group":[["T","a"]],"line":9,"name":"Conflict","place":2}
"#,
        ],
    ),
    // the two Commits the other way round
    (
        1,
        &[&TWO_MEET, &[(1, Step::Commit, ""), (0, Step::Commit, "")]],
        &[
            TWO_MEET_REPLIES,
            r#"{"client":1,"commit":2,"line":8,"ok":"commit"}
{"client":0,"commit":2,"error":13,"group":[["T","a"]],"line":9,"name":"Conflict","place":2}
"#,
        ],
    ),
    // client 0 draws its id first and commits last
    (
        1,
        &[&[
            (
                0,
                Step::Issue { count: 1 },
                r#"{"op":"put","client":0,"entity":{"key":[["T",null]],"properties":{}}}"#,
            ),
            (
                1,
                Step::Issue { count: 1 },
                r#"{"op":"put","client":1,"entity":{"key":[["T",null]],"properties":{}}}"#,
            ),
            (1, Step::Commit, ""),
            (0, Step::Commit, ""),
        ]],
        &[
            r#"{"client":1,"commit":1,"key":[["T",4503599627370497]],"line":1,"ok":"put"}
{"client":0,"commit":2,"key":[["T",4503599627370496]],"line":2,"ok":"put"}
"#,
        ],
    ),
    // a View of one shard comes before its Apply, and that of the other one after
    (
        2,
        &[&[
            (0, Step::Commit, PUT_OTHER),
            (0, Step::Commit, PUT_ZERO),
            (1, VIEW, r#"{"op":"query","client":1,"kind":"T"}"#),
            (2, APPLY, ""),
            (2, Step::Apply { shard: 1 }, ""),
            (1, Step::View { shard: 1 }, ""),
        ]],
        &[
            r#"{"client":0,"commit":1,"key":[["T","b"]],"line":1,"ok":"put"}
{"client":0,"commit":2,"key":[["T","a"]],"line":2,"ok":"put"}
{"applied":[0,1],"client":1,"line":3,"ok":"query","results":[{"key":[["T","a"]],"properties":{"v":0}}]}
"#,
        ],
    ),
    // an apply whose entry another client's Apply took tells that none was applied; the first one tells that it was
    (
        1,
        &[&[
            (0, Step::Commit, PUT_ZERO),
            (1, Step::Touch, r#"{"op":"apply","client":1,"shard":0}"#),
            (2, Step::Touch, r#"{"op":"apply","client":2,"shard":0}"#),
            (2, APPLY, ""),
            (1, APPLY, ""),
            (1, VIEW, ""),
        ]],
        &[
            r#"{"client":0,"commit":1,"key":[["T","a"]],"line":1,"ok":"put"}
{"applied":true,"client":2,"count":1,"line":2,"ok":"apply","place":1,"shard":0}
{"applied":false,"client":1,"count":1,"line":3,"ok":"apply","place":1,"shard":0}
"#,
        ],
    ),
    // a View that does not cover the place is not called for, and what is missing after the last event is taken then
    (
        1,
        &[&[
            (0, Step::Commit, PUT_ZERO),
            (1, Step::Touch, r#"{"op":"settle","client":1}"#),
            (1, VIEW, ""),
            (0, Step::Commit, PUT_OTHER),
            (0, Step::Touch, GET_BY_ZERO),
        ]],
        &[
            r#"{"client":0,"commit":1,"key":[["T","a"]],"line":1,"ok":"put"}
{"client":0,"commit":2,"key":[["T","b"]],"line":2,"ok":"put"}
{"client":0,"entity":{"key":[["T","a"]],"properties":{"v":0}},"line":3,"ok":"get","place":2}
{"applied":[2],"client":1,"line":4,"ok":"settle","place":1}
"#,
        ],
    ),
    // in a transaction a group is read at its touch place, also once more of it is applied: client 1's second get sees the entity of before
    (
        1,
        &[&[
            (0, Step::Commit, PUT_ZERO),
            (0, APPLY, ""),
            (1, Step::Touch, BEGIN_ONE),
            (1, Step::Touch, GET_BY_ONE),
            (1, VIEW, ""),
            (0, Step::Commit, PUT_ONE),
            (0, APPLY, ""),
            (1, VIEW, GET_BY_ONE),
            (0, Step::Touch, GET_BY_ZERO),
            (0, VIEW, ""),
        ]],
        &[
            r#"{"client":0,"commit":1,"key":[["T","a"]],"line":1,"ok":"put"}
{"client":1,"line":2,"ok":"begin"}
{"client":1,"entity":{"key":[["T","a"]],"properties":{"v":0}},"line":3,"ok":"get","place":1}
{"client":0,"commit":2,"key":[["T","a"]],"line":4,"ok":"put"}
{"client":1,"entity":{"key":[["T","a"]],"properties":{"v":0}},"line":5,"ok":"get","place":1}
{"client":0,"entity":{"key":[["T","a"]],"properties":{"v":1}},"line":6,"ok":"get","place":2}
"#,
        ],
    ),
];

/// The place of the first schedule that gives other replies.
fn first_wrong(alloc: Global) -> Result<Option<usize>, Fail> {
    for (place, schedule) in SCHEDULES.iter().enumerate() {
        if !replies_are(alloc, schedule.0, schedule.1, schedule.2)? {
            return Ok(Some(place));
        }
    }
    Ok(None)
}

#[test]
fn schedules_decide(rt: HostRuntime) -> Result<(), Fail> {
    assert_eq!(rt; first_wrong(rt.alloc())?, None);
    Ok(())
}
