//! How large a JSON value is.
ghost use Rattle.std.specs.Prelude.{◌≡◌};
ghost use Rattle.serde_json.specs.Data.{depth, items_depth, members_depth};
ghost use Rattle.serde_json.specs.View.{view, items_view, members_view};
ghost use Rattle.es_tree.specs.Capped.{capped};
ghost use Rattle.es_json.specs.Limits.{objects, items_objects, members_objects};

use serde_json::{Map, Value};

/// The number of JSON objects in the value, and 2^64 - 1 where there are more.
#[cycle(objects)]
pub fn value_objects(value: &Value) -> u64
    ensures { result ≡ capped (objects (view value.now)) }
{
    match value {
        Value::Array(items) => items_objects(items),
        Value::Object(members) => members_objects(members).saturating_add(1),
        _ => 0,
    }
}

#[cycle(objects)]
fn items_objects(items: &Vec<Value>) -> u64
    ensures { result ≡ capped (items_objects (items_view items.now.items)) }
{
    let mut count: u64 = 0;
    for item in items {
        count = count.saturating_add(value_objects(item));
    }
    count
}

#[cycle(objects)]
fn members_objects(members: &Map<String, Value>) -> u64
    ensures { result ≡ capped (members_objects (members_view members.now.entries)) }
{
    let mut count: u64 = 0;
    for (_key, member) in members.iter() {
        count = count.saturating_add(value_objects(member));
    }
    count
}

/// How deep arrays and objects nest in the value, 0 for neither, and 2^64 - 1 where they nest deeper.
#[cycle(depth)]
pub fn value_depth(value: &Value) -> u64
    ensures { result ≡ capped (depth (view value.now)) }
{
    match value {
        Value::Array(items) => items_depth(items).saturating_add(1),
        Value::Object(members) => members_depth(members).saturating_add(1),
        _ => 0,
    }
}

#[cycle(depth)]
fn items_depth(items: &Vec<Value>) -> u64
    ensures { result ≡ capped (items_depth (items_view items.now.items)) }
{
    let mut deepest: u64 = 0;
    for item in items {
        deepest = deepest.max(value_depth(item));
    }
    deepest
}

#[cycle(depth)]
fn members_depth(members: &Map<String, Value>) -> u64
    ensures { result ≡ capped (members_depth (members_view members.now.entries)) }
{
    let mut deepest: u64 = 0;
    for (_key, member) in members.iter() {
        deepest = deepest.max(value_depth(member));
    }
    deepest
}
