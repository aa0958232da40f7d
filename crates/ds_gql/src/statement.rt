//! What a GQL text says, and the arguments that it may cite.
use ds_base::{NamedValues, NoMemory, Values};
use ds_query::Query;

/// The arguments that a text may cite; those that it doesn't cite are ignored.
#[derive(Drop)]
pub struct Bindings {
    /// Those that are cited by their number: `:1` is the first.
    pub args: Values,
    /// Those that are cited by their name; of several with one name the first.
    pub names: NamedValues,
}

/// What a GQL text asks for.
#[derive(Drop)]
pub struct Statement {
    /// The query. Its namespace is the default one, and `cursors` is false.
    pub query: Query,
    /// How many results are skipped, at most 2,147,483,647.
    pub offset: u32,
    /// How many are given at most, itself at most 2,147,483,647; all where there is none.
    pub limit: Option<u32>,
}

/// Why a text isn't read.
#[derive(Drop, Debug)]
pub enum GqlRefused {
    /// The text is no statement: the offset, in bytes, of the first token such that no statement begins with the tokens up to
    /// it. Where no token stands at a place it is that place, and where the text ends too early it is the text's length.
    At(u64),
    /// There is no memory for what was read.
    NoMemory,
}

impl From<NoMemory> for GqlRefused {
    ghost use Rattle.std.specs.Prelude.{◌≡◌};
    ghost use Rattle.ds_gql.specs.declared.statement.GqlRefused.TheVariants.{NoMemory};

    ghost from_gives = { λ _ refused. refused ≡ NoMemory };

    fn from(_: std::alloc::AllocError) -> GqlRefused {
        GqlRefused::NoMemory
    }
}
