//! Bounds of the entries of a list.
ghost use Rattle.std.specs.Prelude.{◌≡◌};
ghost use Rattle.pm_lists.specs.Valid.{AreBounds};

use std::marker::Model;

/// The bounds of a list: for each of its entries the number that it has to stay below. Each bound is at
/// least 1. Contracts see the bounds as a list of numbers.
#[derive(Drop)]
pub struct Bounds {
    limits: Vec<u64>,
}

impl Model for Bounds {
    ghost use Rattle.std.specs.Prelude.{List, ℕ};
    ghost use Rattle.pm_lists.specs.Valid.{AreBounds};

    ghost Value = { List ℕ };

    ghost view = { λ b. b.limits.items };

    ghost invariant = { λ b. AreBounds b.limits.items };
}

impl Bounds {
    /// The bounds with these values.
    pub fn of(values: Vec<u64>) -> Bounds
        requires { AreBounds values.items }
        ensures { result ≡ values.items }
    {
        Bounds { limits: values }
    }

    /// The bounds, in order.
    pub fn values(&self) -> &[u64]
        ensures values { result.now ≡ self.now }
        ensures bounds { AreBounds self.now }
    {
        &self.limits
    }
}
