//! The fields of a table, by key, type and range.
ghost use Rattle.std.specs.Prelude.{◌≡◌, ◌&&◌, nat_le, IfSome, IsTrue, count_by, map, option_map, option_copied};
ghost use Rattle.std.specs.List.{list_all};
ghost use Rattle.toml.specs.Data.{get_member};
ghost use Rattle.toml.specs.View.{view, table_view};
ghost use Rattle.toml_fields.specs.Fields.{has_key, has_unknown_key, text_at, name_at, is_name, checked_name, integer_at, integer_or, whole_at, table_at};
ghost use Rattle.toml_fields.specs.Ranges.{IsWithin};

use crate::ranges::is_within;
use arrayvec::ArrayString;
use toml::{Table, Value};

/// The value at a key.
pub fn value_at<'a>(table: &'a Table, key: &str) -> Option<&'a Value>
    ensures { option_map (λ value. view value.now) result
        ≡ get_member key.now (table_view table.now) }
{
    table.get(key)
}

/// Whether the table has the key.
pub fn has_key(table: &Table, key: &str) -> bool
    ensures { result ≡ has_key key.now (table_view table.now) }
{
    value_at(table, key).is_some()
}

/// How many of the keys the table has.
fn known_keys(table: &Table, keys: &[&str]) -> usize
    ensures { result ≡ count_by (λ key. has_key key.now (table_view table.now)) keys.now }
{
    keys.iter().filter(|key| has_key(table, key)).count()
}

/// Whether the table has more keys than it has of the listed ones, which are distinct.
#[tactic(auto, using(crate::proofs::Sizes::sizes))]
pub fn has_unknown_key(table: &Table, keys: &[&str]) -> bool
    ensures { result ≡ has_unknown_key (map (λ key. key.now) keys.now) (table_view table.now) }
{
    table.len() > known_keys(table, keys)
}

/// The text at a key.
pub fn text_at<'a>(table: &'a Table, key: &str) -> Option<&'a str>
    ensures { option_copied result ≡ text_at key.now (table_view table.now) }
{
    match value_at(table, key) {
        Some(value) => value.as_str(),
        None => None,
    }
}

fn is_visible(text: &[u8]) -> bool
    ensures { result ≡ list_all (λ b. nat_le 0x21 b && nat_le b 0x7E) text.now }
{
    text.iter().all(|b| 0x21 <= *b && *b <= 0x7e)
}

/// Whether the text is a name: 1 to 24 bytes from 0x21 to 0x7E.
pub fn is_name(text: &str) -> bool
    ensures { result ≡ is_name text.now }
{
    !text.is_empty() && text.len() <= 24 && is_visible(text.as_bytes())
}

/// The text as a name.
fn checked_name(text: &str) -> Option<ArrayString<24>>
    ensures value { option_map (λ name. name.bytes) result ≡ checked_name text.now }
    ensures is_name { IfSome result (λ name. IsTrue (is_name name.bytes)) }
{
    if !is_name(text) {
        return None;
    }
    ArrayString::from(text).ok()
}

/// The name at a key: 1 to 24 bytes from 0x21 to 0x7E.
pub fn name_at(table: &Table, key: &str) -> Option<ArrayString<24>>
    ensures value { option_map (λ name. name.bytes) result
        ≡ name_at key.now (table_view table.now) }
    ensures is_name { IfSome result (λ name. IsTrue (is_name name.bytes)) }
{
    match text_at(table, key) {
        Some(text) => checked_name(text),
        None => None,
    }
}

/// The integer at a key, whatever it is.
pub fn whole_at(table: &Table, key: &str) -> Option<i64>
    ensures { result ≡ whole_at key.now (table_view table.now) }
{
    match value_at(table, key) {
        Some(value) => value.as_integer(),
        None => None,
    }
}

/// The integer at a key, within the two ends.
pub fn integer_at(table: &Table, key: &str, low: i64, high: i64) -> Option<i64>
    ensures value { result ≡ integer_at low high key.now (table_view table.now) }
    ensures within { IfSome result (IsWithin low high) }
{
    match whole_at(table, key) {
        Some(n) if is_within(n, low, high) => Some(n),
        _ => None,
    }
}

/// The integer at a key, within the two ends, and `missing` where the key is missing.
pub fn integer_or(table: &Table, key: &str, missing: i64, low: i64, high: i64) -> Option<i64>
    requires { IsWithin low high missing }
    ensures value { result ≡ integer_or missing low high key.now (table_view table.now) }
    ensures within { IfSome result (IsWithin low high) }
{
    if has_key(table, key) {
        integer_at(table, key, low, high)
    } else {
        Some(missing)
    }
}

/// The table at a key.
pub fn table_at<'a>(table: &'a Table, key: &str) -> Option<&'a Table>
    ensures { option_map (λ inner. table_view inner.now) result
        ≡ table_at key.now (table_view table.now) }
{
    match value_at(table, key) {
        Some(value) => value.as_table(),
        None => None,
    }
}
