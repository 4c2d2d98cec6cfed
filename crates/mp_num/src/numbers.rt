//! A list of whole numbers in a public type.
ghost use Rattle.std.specs.Prelude.{◌≡◌};

use std::marker::Model;

/// A list of whole numbers, made from a `Vec` and giving it back. Contracts see the list.
#[derive(Debug, Drop)]
pub struct Numbers {
    items: Vec<i128>,
}

impl Model for Numbers {
    ghost use Rattle.std.specs.Prelude.{List, ℤ};

    ghost Value = { List ℤ };

    ghost view = { λ n. n.items.items };
}

impl Numbers {
    /// The list of these numbers.
    pub fn new(items: Vec<i128>) -> Numbers
        ensures { result ≡ items.items }
    {
        Numbers { items }
    }

    /// The numbers as a slice.
    pub fn as_slice(&self) -> &[i128]
        ensures { result.now ≡ self.now }
    {
        self.items.as_slice()
    }

    /// The `Vec` that the list was made from.
    pub fn into_vec(self) -> Vec<i128>
        ensures { result.items ≡ self }
    {
        let Numbers { items } = self;
        items
    }
}
