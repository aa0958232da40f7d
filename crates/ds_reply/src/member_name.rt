//! The names of the members that replies have.
ghost use Rattle.std.specs.Prelude.{◌≡◌, ◌≤◌, ◌∷◌, [], ◌++◌, length};
ghost use Rattle.std.specs.Ordering.{nat_cmp};
ghost use Rattle.std.specs.Cmp.Lexicographic.{slice_cmp};
ghost use Rattle.json.specs.Print.{quoted};
ghost use Rattle.serde_json.specs.Written.{comma_if};
ghost use Rattle.ds_reply.specs.MemberNames.{name_text, name_rank};

use ds_json_printing::Output;
use std::cmp::Ordering;

/// The name of a member of a reply. They are in byte order of their texts.
#[derive(Clone, Copy)]
pub(crate) enum MemberName {
    Applied,
    At,
    Client,
    Commit,
    Constraint,
    Count,
    Cursor,
    Entity,
    Error,
    Field,
    First,
    Group,
    Id,
    Key,
    Line,
    Name,
    Next,
    Ok,
    Place,
    Reason,
    Results,
    Shard,
    Size,
    Snapshot,
    Suggestion,
}

/// How many names are before this one.
fn rank(name: MemberName) -> u8
    ensures { result ≡ name_rank name }
{
    name as u8
}

/// Which name comes first in byte order. Their ranks alone are compared.
pub(crate) fn compare_names(name: MemberName, other: MemberName) -> Ordering
    ensures { result ≡ slice_cmp nat_cmp (name_text name) (name_text other) }
{
    rank(name).cmp(&rank(other))
}

/// Puts a comma, where something stands before, the name in quotes and a colon.
pub(crate) fn write_name<O: Output>(name: MemberName, later: bool, out: &mut O)
    ensures { O.Writes (comma_if later ++ (quoted (name_text name) ++ 58 ∷ [])) out.old out.new }
{
    let label = label(name);
    if later {
        out.put(label);
    } else {
        out.put(&label[1..]);
    }
}

/// A comma, the name in quotes, and a colon.
#[tactic(auto, unfolding(json::specs::Print::escape_byte))]
fn label(name: MemberName) -> &'static [u8]
    ensures { result.now ≡ 44 ∷ (quoted (name_text name) ++ 58 ∷ []) }
{
    match name {
        MemberName::Applied => b",\"applied\":",
        MemberName::At => b",\"at\":",
        MemberName::Client => b",\"client\":",
        MemberName::Commit => b",\"commit\":",
        MemberName::Constraint => b",\"constraint\":",
        MemberName::Count => b",\"count\":",
        MemberName::Cursor => b",\"cursor\":",
        MemberName::Entity => b",\"entity\":",
        MemberName::Error => b",\"error\":",
        MemberName::Field => b",\"field\":",
        MemberName::First => b",\"first\":",
        MemberName::Group => b",\"group\":",
        MemberName::Id => b",\"id\":",
        MemberName::Key => b",\"key\":",
        MemberName::Line => b",\"line\":",
        MemberName::Name => b",\"name\":",
        MemberName::Next => b",\"next\":",
        MemberName::Ok => b",\"ok\":",
        MemberName::Place => b",\"place\":",
        MemberName::Reason => b",\"reason\":",
        MemberName::Results => b",\"results\":",
        MemberName::Shard => b",\"shard\":",
        MemberName::Size => b",\"size\":",
        MemberName::Snapshot => b",\"snapshot\":",
        MemberName::Suggestion => b",\"suggestion\":",
    }
}
