//! Profiles: how many nodes of which degree a tree has.
ghost use Rattle.std.specs.Prelude.{◌≡◌, ℕ};

use crate::degrees::listed;
use crate::pairs::{degree_sum, first_wrong};
use pm_limits::MAX_EDGES;
use std::alloc::{AllocError, Global};
use std::marker::Model;

/// Why a list of pairs is no profile, in the order in which the rules are tried.
#[derive(Clone, Copy, Debug, PartialEq, Eq)]
pub enum ProfileRefusal {
    /// There is no memory left. It may come at any list.
    Memory,
    /// The first pair, counted from 0, whose degree is odd, below 2, above `MAX_DEGREE` or not above the one before, or
    /// whose count is 0; 0 at the empty list.
    Pair { place: u32 },
    /// More edges than `MAX_EDGES`: half of the sum of the degrees.
    TooMany { edges: u64 },
}

impl From<AllocError> for ProfileRefusal {
    ghost use Rattle.pm_trees.specs.declared.profile.ProfileRefusal.TheVariants.{Memory};

    ghost from_gives = { λ _ refusal. refusal ≡ Memory };

    fn from(_error: AllocError) -> ProfileRefusal {
        ProfileRefusal::Memory
    }
}

/// How many nodes have which degree, seen as the list of the pairs of a degree and a count, in rising order of the degree.
#[derive(Drop)]
pub struct Profile {
    pub(crate) pairs: Vec<(u32, u32)>,
}

impl Model for Profile {
    ghost use Rattle.std.specs.Prelude.{List, ℕ};
    ghost use Rattle.pm_trees.specs.Pairs.{IsProfile};

    ghost Value = { List (ℕ × ℕ) };

    ghost view = { λ profile. profile.pairs.items };

    ghost invariant = { λ profile. IsProfile profile.pairs.items };
}

impl Profile {
    ghost use Rattle.std.specs.Prelude.{◌*◌, ◌<◌, ◌≤◌, ◌^◌, length};
    ghost use Rattle.pm_trees.specs.Pairs.{IsProfile, degree_sum, edges_of};
    ghost use Rattle.pm_trees.specs.Profile.{IsProfileAnswer, IsTableAnswer};

    /// Takes pairs of a degree and a count, of fewer than 2^32 pairs.
    ///
    /// # Errors
    ///
    /// The first rule that the list breaks, in the order of [`ProfileRefusal`], or `Memory`, which may come at any list.
    pub fn of_pairs(alloc: Global, pairs: &[(u32, u32)]) -> Result<Profile, ProfileRefusal>
        requires { length pairs.now < 2 ^ 32 }
        ensures { IsProfileAnswer pairs.now result }
    {
        if let Some(place) = first_wrong(pairs) {
            return Err(ProfileRefusal::Pair { place });
        }
        let edges = degree_sum(pairs) / 2;
        if edges > u64::from(MAX_EDGES) {
            return Err(ProfileRefusal::TooMany { edges });
        }
        let pairs = Vec::from_slice(alloc, pairs)?;
        Ok(Profile { pairs })
    }

    /// Takes a table of fewer than 2^32 entries: entry `d`, for `d` from 1 on, is how many nodes have degree `d`. The pairs
    /// are those of the degrees that have a count, in rising order, with their counts.
    ///
    /// # Errors
    ///
    /// As those of [`Profile::of_pairs`] for these pairs.
    pub fn of_counts(alloc: Global, counts: &[u32]) -> Result<Profile, ProfileRefusal>
        requires { length counts.now < 2 ^ 32 }
        ensures { IsTableAnswer counts.now result }
    {
        let pairs = listed(alloc, counts)?;
        Profile::of_pairs(alloc, &pairs)
    }

    /// The pairs of a degree and the number of nodes that have it, in rising order of the degree.
    pub fn pairs(&self) -> &[(u32, u32)]
        ensures pairs { result.now ≡ self.now }
        ensures valid { IsProfile self.now }
    {
        &self.pairs
    }

    /// The edges of a map whose vertices have these degrees: half of the sum of the degrees.
    pub fn edges(&self) -> u32
        ensures edges { result ≡ edges_of self.now }
        ensures exact { 2 * result ≡ degree_sum self.now }
        ensures few { result ≤ MAX_EDGES }
    {
        (degree_sum(&self.pairs) / 2) as u32
    }
}
