//! The arrays of a table. An array's items are seen as the list of their data.
ghost use Rattle.std.specs.Prelude.{◌≡◌, ℕ, [], map, is_some, option_map};
ghost use Rattle.std.specs.List.{list_all};
ghost use Rattle.toml.specs.Data.{as_integer};
ghost use Rattle.toml.specs.View.{view, table_view};
ghost use Rattle.toml_fields.specs.Lists.{items_of, array_at, array_or_none, is_table, tables_at, tables_or_none, are_integers, integers_of, is_row, rows_at, rows_or_none};

use crate::fields::{has_key, value_at};
use toml::{Table, Value};

/// The items of a value that is an array.
#[tactic(auto, using(crate::proofs::Sizes::sizes))]
fn items_of(value: &Value) -> Option<&[Value]>
    ensures { option_map (λ items. map view items.now) result ≡ items_of (view value.now) }
{
    match value.as_array() {
        Some(array) => Some(array.as_slice()),
        None => None,
    }
}

/// The items of the array at a key.
pub fn array_at<'a>(table: &'a Table, key: &str) -> Option<&'a [Value]>
    ensures { option_map (λ items. map view items.now) result
        ≡ array_at key.now (table_view table.now) }
{
    match value_at(table, key) {
        Some(value) => items_of(value),
        None => None,
    }
}

/// The items of the array at a key, and none where the key is missing.
pub fn array_or_none<'a>(table: &'a Table, key: &str) -> Option<&'a [Value]>
    ensures { option_map (λ items. map view items.now) result
        ≡ array_or_none key.now (table_view table.now) }
{
    if has_key(table, key) {
        array_at(table, key)
    } else {
        Some(&[])
    }
}

/// Whether each item is a table.
fn are_tables(items: &[Value]) -> bool
    ensures { result ≡ list_all (λ item. is_table (view item)) items.now }
{
    items.iter().all(|item| item.is_table())
}

/// The items of the array of tables at a key.
#[tactic(auto, using(crate::proofs::Sizes::sizes))]
pub fn tables_at<'a>(table: &'a Table, key: &str) -> Option<&'a [Value]>
    ensures { option_map (λ items. map view items.now) result
        ≡ tables_at key.now (table_view table.now) }
{
    let items = array_at(table, key)?;
    if are_tables(items) { Some(items) } else { None }
}

/// The items of the array of tables at a key, and none where the key is missing.
#[tactic(auto, using(crate::proofs::Sizes::sizes))]
pub fn tables_or_none<'a>(table: &'a Table, key: &str) -> Option<&'a [Value]>
    ensures { option_map (λ items. map view items.now) result
        ≡ tables_or_none key.now (table_view table.now) }
{
    let items = array_or_none(table, key)?;
    if are_tables(items) { Some(items) } else { None }
}

/// The integers of a value that is an array of exactly `N` integers.
pub fn integers_of<const N: usize>(value: &Value) -> Option<[i64; N]>
    ensures { result ≡ integers_of N (view value.now) }
{
    let items = items_of(value)?;
    if items.len() != N {
        return None;
    }
    let mut integers = [0; N];
    for (i, item) in items.iter().enumerate() {
        integers[i] = item.as_integer()?;
    }
    Some(integers)
}

/// Whether the items are exactly so many, and each is an integer.
#[tactic(auto, using(crate::proofs::Sizes::sizes))]
fn are_integers(items: &[Value], count: usize) -> bool
    ensures { result ≡ are_integers count (map view items.now) }
{
    items.len() == count && each_integer(items)
}

/// Whether each item is an integer.
fn each_integer(items: &[Value]) -> bool
    ensures { result ≡ list_all (λ item. is_some (as_integer (view item))) items.now }
{
    items.iter().all(|item| item.is_integer())
}

/// Whether the value is an array of exactly so many integers.
fn is_row(value: &Value, count: usize) -> bool
    ensures { result ≡ is_row count (view value.now) }
{
    match items_of(value) {
        Some(items) => are_integers(items, count),
        None => false,
    }
}

/// Whether each item is an array of exactly so many integers.
fn are_rows(items: &[Value], count: usize) -> bool
    ensures { result ≡ list_all (λ item. is_row count (view item)) items.now }
{
    items.iter().all(|item| is_row(item, count))
}

/// The items of the array at a key, each an array of exactly so many integers.
#[tactic(auto, using(crate::proofs::Sizes::sizes))]
pub fn rows_at<'a>(table: &'a Table, key: &str, count: usize) -> Option<&'a [Value]>
    ensures { option_map (λ items. map view items.now) result
        ≡ rows_at count key.now (table_view table.now) }
{
    let items = array_at(table, key)?;
    if are_rows(items, count) {
        Some(items)
    } else {
        None
    }
}

/// The items of the array at a key, each an array of exactly so many integers, and none where
/// the key is missing.
#[tactic(auto, using(crate::proofs::Sizes::sizes))]
pub fn rows_or_none<'a>(table: &'a Table, key: &str, count: usize) -> Option<&'a [Value]>
    ensures { option_map (λ items. map view items.now) result
        ≡ rows_or_none count key.now (table_view table.now) }
{
    let items = array_or_none(table, key)?;
    if are_rows(items, count) {
        Some(items)
    } else {
        None
    }
}
