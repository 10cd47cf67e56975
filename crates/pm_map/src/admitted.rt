//! Whether all vertices or all faces have degrees that are admitted.
ghost use Rattle.std.specs.Prelude.{◌≡◌, ◌<◌, ◌≤◌, ◌^◌, ◌↔◌, length, IfOk, IsTrue, MatchOption};
ghost use Rattle.pm_map.specs.ClassRules.{AllAdmitted, IsAdmitted, IsLeastOther};
ghost use Rattle.pm_map.specs.steps.DegreeScan.{AreAdmitted, IsLeastEntry};
ghost use Rattle.pm_map.specs.Rotation.{structure_of};
ghost use Rattle.pm_map.specs.Structure.{dual};

use crate::rooted_map::RootedMap;
use std::alloc::{AllocError, Global};

/// Which degrees a class of maps admits.
#[derive(Clone, Copy, Debug, PartialEq, Eq)]
pub enum Degrees {
    /// This degree and no other.
    Exactly { degree: u32 },
    /// The even ones, up to a greatest.
    EvenUpTo { greatest: u32 },
}

impl RootedMap {
    /// The least dart whose vertex has a degree that isn't one of these, or none where each vertex has one of these. It
    /// takes time linear in the darts.
    ///
    /// # Errors
    ///
    /// `AllocError` where memory runs out.
    pub fn vertex_of_other_degree(
        &self,
        alloc: Global,
        degrees: Degrees,
    ) -> Result<Option<u32>, AllocError>
        ensures { IfOk result (λ found. MatchOption found (AllAdmitted (structure_of self.now) degrees) (IsLeastOther (structure_of self.now) degrees)) }
    {
        let mut sizes = vec![in alloc; 0; self.sigma().len()]?;
        self.vertex_degrees(&mut sizes);
        Ok(degrees.least_other(&sizes))
    }

    /// The least dart whose face has a degree that isn't one of these, or none where each face has one of these. It
    /// takes time linear in the darts.
    ///
    /// # Errors
    ///
    /// `AllocError` where memory runs out.
    pub fn face_of_other_degree(
        &self,
        alloc: Global,
        degrees: Degrees,
    ) -> Result<Option<u32>, AllocError>
        ensures { IfOk result (λ found. MatchOption found (AllAdmitted (dual (structure_of self.now)) degrees) (IsLeastOther (dual (structure_of self.now)) degrees)) }
    {
        let mut sizes = vec![in alloc; 0; self.sigma().len()]?;
        self.face_degrees(&mut sizes);
        Ok(degrees.least_other(&sizes))
    }
}

impl Degrees {
    /// Whether this degree is one of these.
    pub fn admits(self, degree: u32) -> bool
        ensures { IsTrue result ↔ IsAdmitted self degree }
    {
        match self {
            Degrees::Exactly { degree: only } => degree == only,
            Degrees::EvenUpTo { greatest } => degree % 2 == 0 && degree <= greatest,
        }
    }

    // The least place of a size that isn't one of these.
    fn least_other(self, sizes: &[u32]) -> Option<u32>
        requires { length sizes.now < 2 ^ 32 }
        ensures { MatchOption result (AreAdmitted self sizes.now) (IsLeastEntry self sizes.now) }
    {
        'sizes: for place in 0..sizes.len() {
            if !self.admits(sizes[place]) {
                return Some(place as u32);
            }
        }
        None
    }
}
