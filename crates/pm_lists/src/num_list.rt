//! Lists of numbers.
ghost use Rattle.std.specs.Prelude.{◌≡◌};

use std::marker::Model;

/// A list of numbers of 64 bits. Contracts see it as a list of numbers.
#[derive(Drop)]
pub struct NumList {
    entries: Vec<u64>,
}

impl Model for NumList {
    ghost use Rattle.std.specs.Prelude.{List, ℕ};

    ghost Value = { List ℕ };

    ghost view = { λ list. list.entries.items };
}

impl NumList {
    /// The list of these values.
    pub fn of(values: Vec<u64>) -> NumList
        ensures { result ≡ values.items }
    {
        NumList { entries: values }
    }

    /// The numbers, in order.
    pub fn values(&self) -> &[u64]
        ensures { result.now ≡ self.now }
    {
        &self.entries
    }
}
