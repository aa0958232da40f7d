//! The members of an object that was read.
ghost use Rattle.std.specs.Prelude.{◌≡◌, option_map};
ghost use Rattle.serde_json.specs.View.{view, members_view};
ghost use Rattle.ds_json_reading.specs.Reading.{member_of, unless_null, AgreeBut};

use serde_json::{Map, Value};

/// The members of an object, by their names.
pub type Members = Map<String, Value>;

/// The member of this name; none where it is absent or null.
pub fn member<'a>(members: &'a Members, name: &str) -> Option<&'a Value>
    ensures { option_map (λ v. view v.now) result
        ≡ member_of name.now (members_view members.now.entries) }
{
    let found = members.get(name);
    unless_null_behind(found)
}

/// Takes the member of this name out; none where it is absent or null. Every other member stays.
pub fn take_member(members: &mut Members, name: &str) -> Option<Value>
    ensures taken { option_map view result
        ≡ member_of name.now (members_view members.old.entries) }
    ensures others { AgreeBut name.now (members_view members.new.entries)
        (members_view members.old.entries) }
{
    let found = members.remove(name);
    unless_null(found)
}

/// What was found, where it isn't null.
pub fn unless_null(found: Option<Value>) -> Option<Value>
    ensures { option_map view result ≡ unless_null (option_map view found) }
{
    match found {
        None | Some(Value::Null) => None,
        Some(value) => Some(value),
    }
}

/// The same behind a reference.
fn unless_null_behind(found: Option<&Value>) -> Option<&Value>
    ensures { option_map (λ v. view v.now) result
        ≡ unless_null (option_map (λ v. view v.now) found.entry) }
{
    match found {
        None | Some(Value::Null) => None,
        Some(value) => Some(value),
    }
}
