//! What the calls of a store give, and why they refuse.
use ds_base::Counts;
use ds_entity::Entity;
use ds_journal::Draft;
use ds_log::Commits;
use std::alloc::AllocError;

/// A commit with a new id.
#[derive(Drop, Clone, Copy, Debug)]
pub struct NewCommit {
    /// The commit's number.
    pub commit: u64,
    /// The id that was drawn, the last identifier of the put entity's key.
    pub id: u64,
}

/// Why no new id was committed.
#[derive(Drop, Clone, Copy, Debug)]
pub enum NewCause {
    /// No id is left.
    IdsExhausted {
        /// The id counter.
        next: u64,
    },
    /// There was no memory, or the journal has 2^48 commits.
    NoMemory,
}

/// A commit with a new id that is refused: nothing is drawn, and nothing recorded.
#[derive(Drop)]
pub struct NewRefused {
    /// The draft, handed back.
    pub draft: Draft,
    /// Why.
    pub cause: NewCause,
}

/// What a get found.
#[derive(Drop)]
pub struct Got {
    /// The entity, if there is one.
    pub entity: Option<Entity>,
    /// The place in the journal at which it was read.
    pub place: u64,
    /// How many entries the commits up to there give the entity's shard.
    pub entries: u64,
}

/// In a transaction: the versions of the touch place are gone.
#[derive(Drop, Clone, Copy, Debug)]
pub struct Expired {
    /// How many entries the commits up to the touch place give the shard.
    pub snapshot: u64,
    /// How many entries of the shard are applied.
    pub applied: u64,
    /// The commit of the last of these, 0 where there is none.
    pub commit: u64,
}

/// Why a get is refused.
#[derive(Drop)]
pub enum GetRefused {
    /// The versions of the touch place are gone.
    Expired(Expired),
    /// There was no memory, or the shard's hub has ended.
    NoMemory,
}

impl From<AllocError> for GetRefused {
    ghost use Rattle.std.specs.Prelude.{◌≡◌};
    ghost use Rattle.ds_store_passes.specs.declared.answers.GetRefused.TheVariants.{NoMemory};

    ghost from_gives = { λ _ refused. refused ≡ NoMemory };

    fn from(_refused: AllocError) -> GetRefused {
        GetRefused::NoMemory
    }
}

/// Where all shards were settled.
#[derive(Drop)]
pub struct Settled {
    /// A place up to which each shard has applied all entries.
    pub place: u64,
    /// How many entries each shard has applied.
    pub counts: Counts,
    /// The greatest commit of these entries, 0 where there is none.
    pub commit: u64,
}

/// What an apply did.
#[derive(Drop, Clone, Copy, Debug)]
pub struct Applied {
    /// Whether an entry was applied.
    pub moved: bool,
    /// How many entries the shard has applied.
    pub count: u64,
    /// The place that was looked at.
    pub place: u64,
    /// The commit of the last applied entry, 0 where there is none.
    pub commit: u64,
}

/// Commits that were handed out.
#[derive(Drop)]
pub struct Since {
    /// The commits above the place that was asked for.
    pub commits: Commits,
    /// The journal's length.
    pub place: u64,
    /// The id counter.
    pub next: u64,
}
