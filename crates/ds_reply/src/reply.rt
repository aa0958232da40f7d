//! What the server answers.
use ds_base::{Counts, Key, TextString};
use ds_entity::{Entity, Results, Seen};
use ds_indexdef::IndexDef;
use ds_query::{Constraint, Field, Reason, Select};

/// The answer to one line.
#[derive(Drop)]
pub struct Reply {
    /// The client that asked, from 0 to 15.
    pub client: u32,
    /// The line's number, counted from 1 through the whole input.
    pub line: u64,
    /// What is said.
    pub body: Body,
}

/// Where a write stands.
#[derive(Clone, Copy, PartialEq, Eq)]
pub enum WriteAt {
    /// Outside a transaction: the number of its commit, counted from 1.
    Commit(u64),
    /// Inside a transaction: the place at which the group was touched, which is the number of commits before it.
    Place(u64),
}

/// What a reply says: one variant per operation that went well, and one per refusal.
#[derive(Drop)]
pub enum Body {
    /// The entity of this key is written, or will be by the transaction's commit. A key that was incomplete is told with
    /// its new id.
    Put {
        key: Key,
        at: WriteAt,
    },
    /// The entity of this key is deleted, or will be by the transaction's commit.
    Delete {
        key: Key,
        at: WriteAt,
    },
    /// The entity as of `place`, a number of commits; none where there was none.
    Get {
        entity: Option<Entity>,
        place: u64,
    },
    /// What a query found, in its order, what it saw, and where the next page begins, where that was asked for.
    Query {
        select: Select,
        results: Results,
        seen: Seen,
        cursor: Option<TextString>,
    },
    /// What a GQL statement found, as for a query.
    Gql {
        select: Select,
        results: Results,
        seen: Seen,
        cursor: Option<TextString>,
    },
    /// A transaction has begun.
    Begin,
    /// The transaction is committed: the number of its commit, counted from 1.
    Commit {
        commit: u64,
    },
    /// The transaction has ended without a commit.
    Rollback,
    /// So many ids from `first` on were issued.
    AllocateIds {
        first: u64,
        count: u64,
    },
    /// All commits up to `place`, their number, are applied: one count of log entries for each shard.
    Settle {
        place: u64,
        applied: Counts,
    },
    /// Whether an entry of the shard, counted from 0, was applied; how many of its entries are applied now, and the place that the
    /// call looked at, the journal's length.
    Apply {
        applied: bool,
        count: u64,
        place: u64,
        shard: u32,
    },
    /// The line is no JSON.
    BadJson,
    /// The line has more than 2,097,152 bytes.
    LineTooLong,
    /// The member has a wrong shape, or is missing.
    BadRequest {
        field: Field,
    },
    /// What stands in the member where a key is to stand is no key.
    BadKey {
        field: Field,
    },
    /// What stands in the member where a value is to stand is no value.
    BadValue {
        field: Field,
    },
    /// The entity's size, or 2^63 - 1 where it is larger; it is above 1,048,576.
    TooLarge {
        size: u64,
    },
    /// The entity's index rows, or 2^63 - 1 where there are more; they are above 20,000.
    TooManyRows {
        count: u64,
    },
    /// The operation isn't allowed inside a transaction.
    InTransaction,
    /// The operation needs a transaction.
    NoTransaction,
    /// The group that was asked for in a transaction of one group; none for a new root.
    SecondGroup {
        group: Option<Key>,
    },
    /// The transaction has 25 groups.
    TooManyGroups,
    /// The transaction has 500 writes.
    TooManyWrites,
    /// The first group, in the order of touching, that a commit after its touch wrote; the last such commit, counted from 1; and
    /// the place of the check, the journal's length.
    Conflict {
        commit: u64,
        group: Key,
        place: u64,
    },
    /// A query in a transaction needs an ancestor.
    NeedAncestor,
    /// The rule that the query breaks.
    BadQuery {
        reason: Reason,
    },
    /// The number of branches, or 2^63 - 1 where there are more; it is above 30.
    TooManySubqueries {
        count: u64,
    },
    /// What no index serves, and the index that would.
    MissingIndex {
        constraint: Constraint,
        suggestion: IndexDef,
    },
    /// The member is no cursor: `start` or `end`.
    BadCursor {
        field: Field,
    },
    /// The cursor is another query's: `start` or `end`.
    CursorMismatch {
        field: Field,
    },
    /// The statement isn't in the language: the offset in bytes, from 0, of the first token that can't stand there.
    BadGql {
        at: u64,
    },
    /// The first id of the path that was never issued, and the next that will be.
    IdNotIssued {
        id: u64,
        next: u64,
    },
    /// Fewer ids are left than were asked for: the next that would be issued.
    IdsExhausted {
        next: u64,
    },
    /// The versions of the transaction's snapshot are gone: how many entries of the shard are applied, the place at which
    /// the group was touched, and the number of the shard's entries up to it.
    Expired {
        applied: u64,
        place: u64,
        snapshot: u64,
    },
    /// There was no memory.
    NoMemory,
}
