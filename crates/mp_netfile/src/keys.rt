//! The rules on keys and types.
ghost use Rattle.std.specs.Prelude.{◌≡◌, map, option_map};
ghost use Rattle.std.specs.List.{list_all};
ghost use Rattle.toml.specs.View.{view};
ghost use Rattle.mp_netfile.specs.Values.{has_starts, has_delay};
ghost use Rattle.mp_netfile.specs.Keys.{has_unlisted_key, lacks_text, lacks_integer, is_no_integer, lacks_tables, is_array_of_texts, is_no_stages, lacks_key};

use mp_net::Section;
use mp_tree::{are_texts, has_unknown_key, integer_at, is_array_of_tables, items, text_at};
use toml::Value;

/// Whether the files of the version list start queues.
fn has_starts(version: u64) -> bool
    ensures { result ≡ has_starts version }
{
    version == 2 || version == 3
}

/// Whether the files of the version list a delay.
fn has_delay(version: u64) -> bool
    ensures { result ≡ has_delay version }
{
    version == 3
}

/// Whether a table of the section has a key that the files of the version don't list for it.
pub fn has_unlisted_key(version: u64, section: Section, table: &Value) -> bool
    ensures { result ≡ has_unlisted_key version section (view table.now) }
{
    match section {
        Section::Top => {
            if has_delay(version) {
                has_unknown_key(
                    &[
                        "version", "shares", "per", "link", "movement", "junction", "delay",
                    ],
                    table,
                )
            } else {
                has_unknown_key(
                    &["version", "shares", "per", "link", "movement", "junction"],
                    table,
                )
            }
        }
        Section::Link => has_unknown_key(&["name", "burst", "rate"], table),
        Section::Movement => {
            if has_starts(version) {
                has_unknown_key(&["name", "from", "to", "share", "flow", "start"], table)
            } else {
                has_unknown_key(&["name", "from", "to", "share", "flow"], table)
            }
        }
        Section::Junction => has_unknown_key(&["name", "stages"], table),
    }
}

fn lacks_text(key: &str, table: &Value) -> bool
    ensures { result ≡ lacks_text key.now (view table.now) }
{
    text_at(table, key).is_none()
}

fn lacks_integer(key: &str, table: &Value) -> bool
    ensures { result ≡ lacks_integer key.now (view table.now) }
{
    integer_at(table, key).is_none()
}

fn is_no_integer(value: Option<&Value>) -> bool
    ensures { result ≡ is_no_integer (option_map (λ v. view v.now) value.entry) }
{
    match value {
        None => false,
        Some(value) => value.as_integer().is_none(),
    }
}

fn lacks_tables(key: &str, table: &Value) -> bool
    ensures { result ≡ lacks_tables key.now (view table.now) }
{
    !is_array_of_tables(table.get(key))
}

/// Whether a table of the section lacks a key that must be there, or has another type at a listed key.
pub fn lacks_key(section: Section, table: &Value) -> bool
    ensures { result ≡ lacks_key section (view table.now) }
{
    match section {
        Section::Top => {
            lacks_integer("version", table)
                || lacks_integer("shares", table)
                || lacks_integer("per", table)
                || is_no_integer(table.get("delay"))
                || lacks_tables("link", table)
                || lacks_tables("movement", table)
                || lacks_tables("junction", table)
        }
        Section::Link => lacks_text("name", table)
            || is_no_integer(table.get("burst"))
            || is_no_integer(table.get("rate")),
        Section::Movement => {
            lacks_text("name", table)
                || lacks_text("from", table)
                || lacks_text("to", table)
                || lacks_integer("share", table)
                || lacks_integer("flow", table)
                || is_no_integer(table.get("start"))
        }
        Section::Junction => lacks_text("name", table) || is_no_stages(table.get("stages")),
    }
}

fn is_array_of_texts(value: &Value) -> bool
    ensures { result ≡ is_array_of_texts (view value.now) }
{
    value.is_array() && are_texts(items(value))
}

fn are_arrays_of_texts(values: &[Value]) -> bool
    ensures { result ≡ list_all is_array_of_texts (map view values.now) }
{
    values.iter().all(|value| is_array_of_texts(value))
}

fn is_no_stages(value: Option<&Value>) -> bool
    ensures { result ≡ is_no_stages (option_map (λ v. view v.now) value.entry) }
{
    match value {
        None => true,
        Some(value) => !(value.is_array() && are_arrays_of_texts(items(value))),
    }
}
