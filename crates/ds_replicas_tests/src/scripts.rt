//! Scripts, with how they end and what is printed.
use ds_base::{ByteString, NoMemory, Numbers};
use ds_io::{MemorySink, MemorySource};
use ds_replication::{ReplicaStatus, replicate};
use std::alloc::Global;
use std::test::Fail;

struct Case {
    word: &'static str,
    script: &'static str,
    status: ReplicaStatus,
    output: &'static str,
}

const FIRST: &str =
    "propose 0 0 1 a\ndeliver 0\ndeliver 1\ndeliver 3\ndeliver 4\ndeliver 5\ndeliver 6\ndeliver 8\ndeliver 9\n\
    deliver 10\ndeliver 12";

const SECOND: &str =
    "propose 0 0 1 a\ndeliver 0\ndeliver 1\ndeliver 3\ndeliver 4\ndeliver 5\ndeliver 6\ndeliver 8\ndeliver 9\n\
    deliver 10\ndeliver 12\nrestart 0\npropose 1 0 1 b\ndeliver 14\ndeliver 15\ndeliver 16\ndeliver 17\ndeliver 19\ndeliver 20\n\
    deliver 21\ndeliver 22\n";

// One member chooses alone: of two positions and two logs, each entry stands at its own.
const ALONE: &str =
    "propose 0 7 2 two words\ndeliver 0\ndeliver 1\ndeliver 2\ndeliver 3\npropose 0 7 1 one\ndeliver 5\ndeliver 6\n\
    deliver 7\ndeliver 8\npropose 0 3 4294967296 c\ndeliver 10\ndeliver 11\ndeliver 12\ndeliver 13\n";

const CASES: [Case; 18] = [
    Case {
        word: "3",
        script: FIRST,
        status: ReplicaStatus::Done,
        output: "replica 0 log 0 position 1 a\nreplica 2 log 0 position 1 a\n",
    },
    Case {
        word: "3",
        script: SECOND,
        status: ReplicaStatus::Done,
        output: "replica 0 log 0 position 1 a\nreplica 1 log 0 position 1 a\nreplica 2 log 0 position 1 a\n",
    },
    Case {
        word: "1",
        script: ALONE,
        status: ReplicaStatus::Done,
        output: "replica 0 log 3 position 4294967296 c\nreplica 0 log 7 position 1 one\nreplica 0 log 7 position 2 two words\n",
    },
    Case {
        word: "9",
        script: "",
        status: ReplicaStatus::Done,
        output: "",
    },
    Case {
        word: "3",
        script: "deliver 0",
        status: ReplicaStatus::Script { line: 1 },
        output: "",
    },
    Case {
        word: "3",
        script: "propose 0 0 1 a\n\n",
        status: ReplicaStatus::Script { line: 2 },
        output: "",
    },
    Case {
        word: "3",
        script: "propose 0 0 1 a\ndeliver 3\n",
        status: ReplicaStatus::Script { line: 2 },
        output: "",
    },
    Case {
        word: "3",
        script: "propose 3 0 1 a",
        status: ReplicaStatus::Script { line: 1 },
        output: "",
    },
    Case {
        word: "3",
        script: "restart 3",
        status: ReplicaStatus::Script { line: 1 },
        output: "",
    },
    Case {
        word: "3",
        script: "restart 2\nrestart  2",
        status: ReplicaStatus::Script { line: 2 },
        output: "",
    },
    Case {
        word: "3",
        script: "propose 0 0 0 a",
        status: ReplicaStatus::Script { line: 1 },
        output: "",
    },
    Case {
        word: "3",
        script: "propose 0 0 1 ",
        status: ReplicaStatus::Script { line: 1 },
        output: "",
    },
    Case {
        word: "3",
        script: "propose 0 0 01 a",
        status: ReplicaStatus::Script { line: 1 },
        output: "",
    },
    Case {
        word: "3",
        script: "propose 0 4294967296 1 a",
        status: ReplicaStatus::Script { line: 1 },
        output: "",
    },
    Case {
        word: "3",
        script: "propose 0 0 18446744073709551616 a",
        status: ReplicaStatus::Script { line: 1 },
        output: "",
    },
    Case {
        word: "0",
        script: "deliver 0",
        status: ReplicaStatus::Usage,
        output: "",
    },
    Case {
        word: "10",
        script: "",
        status: ReplicaStatus::Usage,
        output: "",
    },
    Case {
        word: "",
        script: "",
        status: ReplicaStatus::Usage,
        output: "",
    },
];

/// Whether a run ends as the case says, over an input that gives five bytes at a time and an output that takes three.
fn ends(alloc: Global, case: &Case) -> Result<bool, NoMemory> {
    let word = String::from_str(alloc, case.word)?;
    let script = ByteString::of(alloc, case.script.as_bytes())?;
    let mut input = MemorySource::make(script, 5, Numbers::new(alloc));
    let mut output = MemorySink::make(alloc, 3, Numbers::new(alloc));
    let status = replicate(alloc, &[word], &mut input, &mut output);
    Ok(status == case.status && output.written().bytes() == case.output.as_bytes())
}

fn all_end(alloc: Global) -> Result<bool, NoMemory> {
    for case in &CASES {
        if !ends(alloc, case)? {
            return Ok(false);
        }
    }
    Ok(true)
}

/// How a run ends over an input and an output of which this call fails.
fn ends_by(alloc: Global, read: u64, write: u64) -> Result<ReplicaStatus, NoMemory> {
    let word = String::from_str(alloc, "3")?;
    let script = ByteString::of(alloc, FIRST.as_bytes())?;
    let reads = Numbers::of_one(alloc, read)?;
    let writes = Numbers::of_one(alloc, write)?;
    let mut input = MemorySource::make(script, 50, reads);
    let mut output = MemorySink::make(alloc, 20, writes);
    Ok(replicate(alloc, &[word], &mut input, &mut output))
}

#[test]
fn scripts_end_as_told(rt: HostRuntime) -> Result<(), Fail> {
    assert!(rt; all_end(rt.alloc())?);
    assert!(rt; ends_by(rt.alloc(), 100, 100)? == ReplicaStatus::Done);
    assert!(rt; ends_by(rt.alloc(), 2, 100)? == ReplicaStatus::ReadFault);
    assert!(rt; ends_by(rt.alloc(), 100, 2)? == ReplicaStatus::WriteFault);
    Ok(())
}
