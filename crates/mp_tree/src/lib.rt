//! What a reader asks of a TOML tree, and how a printer fills a table.
#![tactic(auto)]

mod make;
mod tree;

pub use make::put;
pub use tree::{
    are_tables, are_texts, has_unknown_key, integer_at, is_array_of_tables, items, section, text_at,
};
