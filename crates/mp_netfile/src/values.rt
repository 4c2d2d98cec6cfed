//! What stands at a key, and the rules on numbers and names.
ghost use Rattle.std.specs.Prelude.{◌≡◌, ◌≤◌, ◌<◌, ◌^◌, map};
ghost use Rattle.std.specs.List.{list_all};
ghost use Rattle.toml.specs.View.{view};
ghost use Rattle.mp_model.specs.Names.{is_name};
ghost use Rattle.mp_net.specs.NumberRules.{outside};
ghost use Rattle.mp_tree.specs.Tree.{items, text_or_empty};
ghost use Rattle.mp_netfile.specs.Values.{integer_or_zero, number_at};
ghost use Rattle.mp_netfile.specs.Meaning.{name_at, items_at, texts_of, is_outside, has_bad_integer, has_bad_number, has_bad_name};

use mp_net::{Name, Section};
use mp_tree::{integer_at, items, section, text_at};
use toml::Value;

fn integer_or_zero(table: &Value, key: &str) -> i64
    ensures { result ≡ integer_or_zero key.now (view table.now) }
{
    match integer_at(table, key) {
        Some(n) => n,
        None => 0,
    }
}

/// The number at a key, and 0 where the key is absent.
pub fn number_at(table: &Value, key: &str) -> u32
    requires { number_at key.now (view table.now) < 2 ^ 32 }
    ensures { result ≡ number_at key.now (view table.now) }
{
    match integer_at(table, key) {
        Some(n) if n >= 0 => n as u32,
        _ => 0,
    }
}

/// The text at a key, and the empty one where the key is absent.
pub fn name_at<'a>(table: &'a Value, key: &str) -> &'a str
    ensures { result.now ≡ name_at key.now (view table.now) }
{
    match text_at(table, key) {
        Some(text) => text,
        None => "",
    }
}

/// The items of the array at a key, and none where the key is absent.
pub fn items_at<'a>(table: &'a Value, key: &str) -> &'a [Value]
    ensures { map view result.now ≡ items_at key.now (view table.now) }
{
    match table.get(key) {
        Some(found) => items(found),
        None => &[],
    }
}

/// A text as it is, and the empty one of another value.
pub fn text_or_empty(value: &Value) -> &str
    ensures { result.now ≡ text_or_empty (view value.now) }
{
    match value.as_str() {
        Some(text) => text,
        None => "",
    }
}

fn is_outside(low: u32, high: u32, n: i64) -> bool
    ensures { result ≡ is_outside low high n }
{
    n < i64::from(low) || n > i64::from(high)
}

fn outside(low: usize, high: usize, n: usize) -> bool
    ensures { result ≡ outside low high n }
{
    n < low || high < n
}

fn has_bad_integer(top: &Value) -> bool
    ensures { result ≡ has_bad_integer (view top.now) }
{
    is_outside(1, 1000, integer_or_zero(top, "shares"))
        || is_outside(1, 3600, integer_or_zero(top, "per"))
        || is_outside(0, 60, integer_or_zero(top, "delay"))
}

/// Whether a table of the section has a number out of its range. The share total bounds the shares of movements, and the rate length those of links.
pub fn has_bad_number(shares: u32, per: u32, kind: Section, table: &Value) -> bool
    requires { per ≤ 3600 }
    ensures { result ≡ has_bad_number shares per kind (view table.now) }
{
    match kind {
        Section::Top => {
            has_bad_integer(table)
                || outside(1, 128, section(table, "link").len())
                || outside(1, 512, section(table, "movement").len())
                || outside(1, 64, section(table, "junction").len())
        }
        Section::Link => {
            is_outside(0, 10000, integer_or_zero(table, "burst"))
                || is_outside(0, 1000 * per, integer_or_zero(table, "rate"))
        }
        Section::Movement => {
            is_outside(1, shares, integer_or_zero(table, "share"))
                || is_outside(1, 1000, integer_or_zero(table, "flow"))
                || is_outside(0, 1_000_000, integer_or_zero(table, "start"))
        }
        Section::Junction => outside(1, 16, items_at(table, "stages").len()),
    }
}

fn is_name(text: &str) -> bool
    ensures { result ≡ is_name text.now }
{
    Name::from_bytes(text.as_bytes()).is_some()
}

fn are_names(texts: &[Value]) -> bool
    ensures { result ≡ list_all is_name (texts_of (map view texts.now)) }
{
    for text in texts {
        if !is_name(text_or_empty(text)) {
            return false;
        }
    }
    true
}

fn are_stages_of_names(stages: &[Value]) -> bool
    ensures { result ≡ list_all (list_all is_name) (map (λ stage. texts_of (items stage)) (map view stages.now)) }
{
    for stage in stages {
        if !are_names(items(stage)) {
            return false;
        }
    }
    true
}

/// Whether a table of the section has a text that is not a name, or `out` where it stands for no link.
pub fn has_bad_name(kind: Section, table: &Value) -> bool
    ensures { result ≡ has_bad_name kind (view table.now) }
{
    match kind {
        Section::Top => false,
        Section::Link => !is_name(name_at(table, "name")) || name_at(table, "name") == "out",
        Section::Movement => {
            !is_name(name_at(table, "name"))
                || !is_name(name_at(table, "from"))
                || name_at(table, "from") == "out"
                || !is_name(name_at(table, "to"))
        }
        Section::Junction => {
            !is_name(name_at(table, "name")) || !are_stages_of_names(items_at(table, "stages"))
        }
    }
}
