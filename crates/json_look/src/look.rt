//! What stands under a name of a JSON object, and in a JSON array.
ghost use Rattle.std.specs.Prelude.{◌≡◌, ◌≤◌, ◌<◌, map, IfSome, option_map, vec_len};
ghost use Rattle.std.specs.List.{list_any};
ghost use Rattle.std.specs.Str.{bytes_eq};
ghost use Rattle.serde_json.specs.View.{view};
ghost use Rattle.json_look.specs.Json.{whole_at, ranged_at, below_at, has_only, array_of, sized_array};

use serde_json::Value;

/// The whole number under a name.
#[tactic(auto, unfolding(crate::specs::Json::whole_at))]
pub fn whole(value: &Value, name: &str) -> Option<u64>
    ensures { result ≡ whole_at name.now (view value.now) }
{
    value.get(name).and_then(Value::as_u64)
}

/// The whole number under a name, if it lies from `low` to `high`.
#[tactic(auto, unfolding(crate::specs::Json::ranged_at))]
pub fn ranged(value: &Value, name: &str, low: u64, high: u64) -> Option<u64>
    ensures value { result ≡ ranged_at name.now low high (view value.now) }
    ensures range { IfSome result (λ n. (low ≤ n) × (n ≤ high)) }
{
    let number = whole(value, name)?;
    if low <= number && number <= high {
        Some(number)
    } else {
        None
    }
}

/// The whole number under a name, if it lies below the limit.
#[tactic(auto, unfolding(crate::specs::Json::below_at))]
pub fn below(value: &Value, name: &str, limit: u64) -> Option<u64>
    ensures value { result ≡ below_at name.now limit (view value.now) }
    ensures range { IfSome result (λ n. n < limit) }
{
    let number = whole(value, name)?;
    if number < limit { Some(number) } else { None }
}

fn is_among(names: &[&str], name: &str) -> bool
    ensures { result ≡ list_any (λ n. bytes_eq name.now n.now) names.now }
{
    names.iter().any(|n| name == *n)
}

/// Whether it is an object with no other names than these.
#[tactic(auto, unfolding(crate::specs::Json::has_only))]
pub fn has_only(value: &Value, names: &[&str]) -> bool
    ensures { result ≡ has_only (λ k. list_any (λ n. bytes_eq k n.now) names.now) (view value.now) }
{
    let Some(members) = value.as_object() else {
        return false;
    };
    for key in members.keys() {
        if !is_among(names, key.as_str()) {
            return false;
        }
    }
    true
}

fn array_of(value: &Value) -> Option<&Vec<Value>>
    ensures { option_map (λ v. map view v.now.items) result ≡ array_of (view value.now) }
{
    value.as_array()
}

/// The items of an array that has from `least` to `most` of them.
#[tactic(auto, unfolding(crate::specs::Json::sized_array))]
pub fn sized_array(value: &Value, least: usize, most: usize) -> Option<&Vec<Value>>
    ensures value { option_map (λ v. map view v.now.items) result ≡ sized_array least most (view value.now) }
    ensures range { IfSome result (λ v. (least ≤ vec_len v.now) × (vec_len v.now ≤ most)) }
{
    let values = array_of(value)?;
    if least <= values.len() && values.len() <= most {
        Some(values)
    } else {
        None
    }
}
