//! The values at the keys of a table.

ghost use Rattle.std.specs.Prelude.{◌≡◌, option_map};
ghost use Rattle.toml.specs.Data.{as_str, as_integer, get_member};
ghost use Rattle.toml.specs.View.{view, table_view};
ghost use Rattle.subscribers.specs.Form.{required, optional};

use toml::{Table, Value};

/// The value at a key.
pub fn value_at<'a>(table: &'a Table, key: &str) -> Option<&'a Value>
    ensures { option_map (λ v. view v.now) result ≡ get_member key.now (table_view table.now) }
{
    table.get(key)
}

/// The text at a key. None where none stands there.
pub fn text_at<'a>(table: &'a Table, key: &str) -> Option<&'a str>
    ensures { option_map (λ s. s.now) result ≡ required as_str key.now (table_view table.now) }
{
    match value_at(table, key) {
        Some(value) => value.as_str(),
        None => None,
    }
}

/// The integer at a key. None where none stands there.
pub fn integer_at(table: &Table, key: &str) -> Option<i64>
    ensures { result ≡ required as_integer key.now (table_view table.now) }
{
    match value_at(table, key) {
        Some(value) => value.as_integer(),
        None => None,
    }
}

/// The text at a key that may be missing. The outer None says that a value of another kind stands there.
pub fn text_or_none_at<'a>(table: &'a Table, key: &str) -> Option<Option<&'a str>>
    ensures { option_map (λ o. option_map (λ s. s.now) o) result ≡ optional as_str key.now (table_view table.now) }
{
    match value_at(table, key) {
        None => Some(None),
        Some(value) => match value.as_str() {
            Some(text) => Some(Some(text)),
            None => None,
        },
    }
}

/// The integer at a key that may be missing. The outer None says that a value of another kind stands there.
pub fn integer_or_none_at(table: &Table, key: &str) -> Option<Option<i64>>
    ensures { result ≡ optional as_integer key.now (table_view table.now) }
{
    match value_at(table, key) {
        None => Some(None),
        Some(value) => match value.as_integer() {
            Some(number) => Some(Some(number)),
            None => None,
        },
    }
}
