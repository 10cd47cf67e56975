//! The darts around a face.
ghost use Rattle.std.specs.Prelude.{◌<◌, length};
ghost use Rattle.std.specs.Iterator.{YieldsFirst, item_count};
ghost use Rattle.pm_map.specs.FaceWalk.{IsFaceFrom};
ghost use Rattle.pm_map.specs.Rotation.{structure_of};

use crate::darts::twin_of;
use crate::rooted_map::RootedMap;
use std::marker::Model;

/// The darts around a face of a map, in order. Contracts see it as the list of the darts that are still to come.
#[derive(Drop)]
pub struct FaceWalk<'a> {
    sigma: &'a [u32],
    first: u32,
    next: Option<u32>,
}

impl<'a> Model for FaceWalk<'a> {
    ghost use Rattle.std.specs.Prelude.{ℕ, List};
    ghost use Rattle.pm_map.specs.FaceWalk.{darts_left, IsFaceWalk};

    ghost Value = { List ℕ };

    ghost view = { λ walk. darts_left walk.sigma.now walk.first walk.next };

    ghost invariant = { λ walk. IsFaceWalk walk.sigma.now walk.first walk.next };
}

impl<'a> Iterator for FaceWalk<'a> {
    type Item = u32;

    ghost next_gives = { YieldsFirst (λ darts. darts) };

    ghost remaining = { item_count (λ darts. darts) };

    fn next(&mut self) -> Option<u32> {
        let dart = self.next?;
        let after = self.sigma[twin_of(dart) as usize];
        self.next = if after == self.first {
            None
        } else {
            Some(after)
        };
        Some(dart)
    }
}

impl RootedMap {
    /// The darts around the face of dart `d`, in order from `d`, each once.
    pub fn face_walk(&self, d: u32) -> FaceWalk<'_>
        requires { d < length self.now.sigma }
        ensures { IsFaceFrom (structure_of self.now) d result }
    {
        FaceWalk {
            sigma: self.sigma(),
            first: d,
            next: Some(d),
        }
    }
}
