//! What the reader asks of a TOML tree.
ghost use Rattle.std.specs.Prelude.{◌≡◌, map, option_map, option_copied};
ghost use Rattle.std.specs.List.{list_all};
ghost use Rattle.toml.specs.View.{view};
ghost use Rattle.mp_tree.specs.Tree.{text_at, integer_at, is_text, is_table, is_array_of_tables, section, items, is_one_of, has_unknown_key};

use toml::Value;

/// The text at a key. `None` where the key is absent or its value is no text.
pub fn text_at<'a>(value: &'a Value, key: &str) -> Option<&'a str>
    ensures { option_copied result ≡ text_at key.now (view value.now) }
{
    match value.get(key) {
        Some(found) => found.as_str(),
        None => None,
    }
}

/// The integer at a key. `None` where the key is absent or its value is no integer.
pub fn integer_at(value: &Value, key: &str) -> Option<i64>
    ensures { result ≡ integer_at key.now (view value.now) }
{
    match value.get(key) {
        Some(found) => found.as_integer(),
        None => None,
    }
}

/// The items of an array in their order, and none of another value.
pub fn items(value: &Value) -> &[Value]
    ensures { map view result.now ≡ items (view value.now) }
{
    match value {
        Value::Array(values) => values.as_slice(),
        _ => &[],
    }
}

/// Whether each value is a table.
pub fn are_tables(values: &[Value]) -> bool
    ensures { result ≡ list_all is_table (map view values.now) }
{
    values.iter().all(|value| value.is_table())
}

/// Whether each value is a text.
pub fn are_texts(values: &[Value]) -> bool
    ensures { result ≡ list_all is_text (map view values.now) }
{
    values.iter().all(|value| value.is_str())
}

/// Whether there is a value and it is an array of which each item is a table. An empty array is one.
pub fn is_array_of_tables(value: Option<&Value>) -> bool
    ensures { result ≡ is_array_of_tables (option_map (λ v. view v.now) value.entry) }
{
    match value {
        Some(value) => value.is_array() && are_tables(items(value)),
        None => false,
    }
}

/// The tables of the section at a key. There are none where the value is no array of tables.
pub fn section<'a>(value: &'a Value, key: &str) -> &'a [Value]
    ensures { map view result.now ≡ section key.now (view value.now) }
{
    match value.get(key) {
        Some(found) if is_array_of_tables(Some(found)) => items(found),
        _ => &[],
    }
}

fn is_one_of(words: &[&str], key: &str) -> bool
    ensures { result ≡ is_one_of (map (λ word. word.now) words.now) key.now }
{
    words.iter().any(|word| key == *word)
}

/// Whether a table has a key that is not one of the words. Another value has no keys.
pub fn has_unknown_key(words: &[&str], value: &Value) -> bool
    ensures { result ≡ has_unknown_key (map (λ word. word.now) words.now) (view value.now) }
{
    match value {
        Value::Table(table) => table.keys().any(|key| !is_one_of(words, key.as_str())),
        _ => false,
    }
}
