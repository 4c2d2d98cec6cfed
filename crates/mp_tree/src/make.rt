//! Tables from their parts.
ghost use Rattle.std.specs.Prelude.{◌≡◌, OnOk};
ghost use Rattle.toml.specs.View.{view, table_view};
ghost use Rattle.mp_tree.specs.Put.{with_member};

use std::alloc::{AllocError, Global};
use toml::{Table, Value};

/// Puts a value at a key, in place of the one that stood there. Memory is taken for the key and for its place.
pub fn put(alloc: Global, table: &mut Table, key: &str, value: Value) -> Result<(), AllocError>
    ensures { OnOk result (table_view table.new ≡ with_member key.now (view value) (table_view table.old)) }
{
    let key = String::from_str(alloc, key)?;
    table.insert(key, value)?;
    Ok(())
}
