//! What a client asks, and why a line asks nothing.
use ds_base::{Columns, Key, NamedValues, TextString, Values};
use ds_entity::Properties;
use ds_query::{Field, Filters, Select};

/// A line that was read.
#[derive(Drop)]
pub struct Request {
    /// The client that asks, from 0 to 15.
    pub client: u32,
    /// What it asks.
    pub call: Call,
}

/// One variant per operation, with its members. The limits of an entity's size, of a query's form and of the numbers of shards
/// and ids are tested above.
#[derive(Drop)]
pub enum Call {
    /// Writes an entity.
    Put {
        /// The entity's key, of which no kind and no name is reserved.
        key: Key,
        /// Whether the line leaves the last identifier open: it is read as the id 1, and an automatic id replaces it.
        incomplete: bool,
        /// The properties, ascending by name and fewer than 2^32, each with at least one value.
        properties: Properties,
    },
    /// Deletes the entity of a key.
    Delete {
        /// The key, of which no kind and no name is reserved.
        key: Key,
    },
    /// Asks for the entity of a key.
    Get {
        /// The key; reserved kinds and names are allowed.
        key: Key,
    },
    /// Asks for the results of a query.
    Query {
        /// The namespace whose entities the query sees; empty for the default one.
        namespace: TextString,
        /// The kind of the results, at least one byte; any kind where there is none.
        kind: Option<TextString>,
        /// The key that the results lie under, if one is given.
        ancestor: Option<Key>,
        /// The conditions, all of which must hold.
        filters: Filters,
        /// The orders, the first of which counts most.
        orders: Columns,
        /// What is given of each result; a projection has at least one name.
        select: Select,
        /// How many results are skipped, at most 2,147,483,647.
        offset: u32,
        /// How many results are given at most, itself at most 2,147,483,647; all where there is none.
        limit: Option<u32>,
        /// The text of the cursor after which results begin, as it was given.
        start: Option<TextString>,
        /// The text of the cursor up to which results are given, as it was given.
        end: Option<TextString>,
        /// Whether the reply is to tell the cursor of its last result.
        cursor: bool,
    },
    /// Asks for the results of a statement of the query language.
    Gql {
        /// The namespace whose entities the statement sees; empty for the default one.
        namespace: TextString,
        /// The statement, as it was given.
        text: TextString,
        /// The values of the bindings `:1`, `:2` and so on; no lists.
        args: Values,
        /// The values of the bindings by name, ascending by name; no lists.
        names: NamedValues,
        /// As in a query.
        start: Option<TextString>,
        /// As in a query.
        end: Option<TextString>,
        /// As in a query.
        cursor: bool,
    },
    /// Begins a transaction.
    Begin {
        /// Whether it may touch several entity groups.
        xg: bool,
    },
    /// Commits the transaction.
    Commit,
    /// Drops the transaction.
    Rollback,
    /// Applies every committed write.
    Settle,
    /// Draws ids.
    AllocateIds {
        /// How many, from 1 to 2^63 - 1.
        count: u64,
    },
    /// Applies the next entry of a shard.
    Apply {
        /// The shard's number, from 0 to 2^63 - 1; whether there is such a shard is tested above.
        shard: u64,
    },
}

/// Why a line is no request. A line whose client can't be read is client 0's.
#[derive(Clone, Copy, PartialEq, Eq)]
pub enum RequestRefused {
    /// The line isn't UTF-8, isn't JSON, or nests deeper than 127 levels.
    BadJson,
    /// The member is missing where it may not be, or has the wrong shape.
    BadRequest {
        /// The client that is told, from 0 to 15.
        client: u32,
        /// The first member that fails.
        field: Field,
    },
    /// In the member, what stands where a key is to stand is no key.
    BadKey {
        /// The client that is told, from 0 to 15.
        client: u32,
        /// The first member that fails.
        field: Field,
    },
    /// In the member, what stands where a value is to stand is no value.
    BadValue {
        /// The client that is told, from 0 to 15.
        client: u32,
        /// The first member that fails.
        field: Field,
    },
    /// There was no memory.
    NoMemory,
}
