//! The limits of the whole server, each once: the Datastore's own, and where it leaves a number open, this project's.
//!
//! The definitions have their own numbers, in `specs/Limits`; `specs/LimitLaws` shows that each pair is equal.

/// The most elements of a key's path.
pub const MAX_PATH_LENGTH: usize = 100;

/// The greatest id of a key element, 2^63 - 1.
pub const MAX_ID: u64 = 9_223_372_036_854_775_807;

/// The first id that is drawn automatically, 2^52: from here on a written id must have been issued.
pub const FIRST_DRAWN_ID: u64 = 4_503_599_627_370_496;

/// The most bytes of a kind, a key name, a property name, and an indexed string or byte string.
pub const MAX_NAME_BYTES: usize = 1_500;

/// The most bytes of a namespace.
pub const MAX_NAMESPACE_BYTES: usize = 100;

/// The greatest rating.
pub const MAX_RATING: u8 = 100;

/// The greatest size of an entity, in the units of `specs/Entities`.
pub const MAX_ENTITY_SIZE: u64 = 1_048_576;

/// The greatest size or count that a refusal tells: a larger one is told as this.
pub const MAX_TOLD_SIZE: u64 = 9_223_372_036_854_775_807;

/// The most index rows of an entity.
pub const MAX_INDEX_ROWS: u64 = 20_000;

/// The most composite index definitions.
pub const MAX_DEFINITIONS: usize = 200;

/// The most branches of a query.
pub const MAX_BRANCHES: usize = 30;

/// The greatest offset and the greatest limit of a query.
pub const MAX_RESULTS: u32 = 2_147_483_647;

/// The most writes of a commit.
pub const MAX_WRITES: usize = 500;

/// The most entity groups of a transaction that may touch several.
pub const MAX_GROUPS: usize = 25;

/// A journal with so many commits takes no further one, 2^48.
pub const MAX_COMMITS: u64 = 281_474_976_710_656;

/// The greatest number of a client; the first is 0.
pub const MAX_CLIENT: u32 = 15;

/// The most shards.
pub const MAX_SHARDS: u32 = 16;

/// The most background appliers.
pub const MAX_APPLIERS: u32 = 8;

/// The most kept versions of a shard, in entries.
pub const MAX_WINDOW: u64 = 65_536;

/// The most bytes of a line; a longer one is refused, whatever it says.
pub const MAX_LINE_BYTES: usize = 2_097_152;

/// The most lines of a round.
pub const MAX_ROUND_LINES: usize = 65_536;

/// A round ends with the line with which its kept bytes reach this number.
pub const MAX_ROUND_BYTES: usize = 67_108_864;

/// The most bytes that are taken of an input, 2^40.
pub const MAX_INPUT_BYTES: u64 = 1_099_511_627_776;

/// The most bytes of a file that is loaded, 2^30.
pub const MAX_FILE_BYTES: usize = 1_073_741_824;
