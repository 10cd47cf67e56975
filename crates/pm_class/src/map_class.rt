//! Classes of maps as samplers.
ghost use Rattle.std.specs.Prelude.{◌≡◌, ◌↔◌, ℕ, List, Result, Ok, IfOk, IsTrue};
ghost use Rattle.pm_lists.specs.Valid.{IsValidList};
ghost use Rattle.pm_map.specs.Rotation.{RotationSystem};
ghost use Rattle.pm_map.specs.declared.class_refusal.ClassRefusal.{ClassRefusal};
ghost use Rattle.pm_class.specs.ClassLaws.{IsKeptByRenumbering, AreLimits, HasMostEdges};
ghost use Rattle.pm_class.specs.OneToOne.{AreOneToOne};
ghost use Rattle.pm_class.specs.Sampling.{IsSampled, IsSampledUnnamed, IsSampling, IsSizeWhereAnswered, HasOneAnswer, HasSomeAnswer};
ghost use Rattle.pm_class.specs.Unsampling.{IsUnsampled, IsUnsampling};

use crate::sample::{Sample, SampleRefusal, UnsampleRefusal};
use pm_canon::canon;
use pm_lists::{Bounds, NumList, check_list};
use pm_map::{ClassRefusal, RootedMap};
use std::alloc::{AllocError, Global};

/// A class of rooted maps that can be sampled: for each of its admissible sizes a list of bounded choices becomes a map
/// of the class and that size, and a residue, which is a list of bounded numbers too.
pub trait MapClass {
    /// How a map of the class is measured.
    type Size: Drop;

    // The admissible sizes.
    ghost is_size: { Self.Size → Type 0 };

    // The bounds of the choices of a size.
    ghost choice_limits: { Self.Size → List ℕ };

    // The bounds of the residues of a size.
    ghost residue_limits: { Self.Size → List ℕ };

    // The map is in the class and has the size.
    ghost has: { Self.Size → RotationSystem → Type 0 };

    // What a map is answered that should be in the class: its size, or the first rule that it breaks.
    ghost answers: { RotationSystem → Result Self.Size ClassRefusal → Type 0 };

    // These choices of a size give this map and this residue.
    ghost samples: { Self.Size → List ℕ → RotationSystem → List ℕ → Type 0 };

    // The constant of this name, for clauses.
    ghost MOST_EDGES: { ℕ };

    /// The greatest number of edges of a map of the class.
    const MOST_EDGES: u32;

    /// Whether the size is admissible.
    fn admissible(size: &Self::Size) -> bool
        ensures { IsTrue result ↔ is_size size.now };

    /// The bounds of the choices of an admissible size.
    ///
    /// # Errors
    ///
    /// `AllocError` where memory runs out.
    fn choice_bounds(alloc: Global, size: &Self::Size) -> Result<Bounds, AllocError>
        requires { is_size size.now }
        ensures { IfOk result (λ bounds. bounds ≡ choice_limits size.now) };

    /// The bounds of the residues of an admissible size.
    ///
    /// # Errors
    ///
    /// `AllocError` where memory runs out.
    fn residue_bounds(alloc: Global, size: &Self::Size) -> Result<Bounds, AllocError>
        requires { is_size size.now }
        ensures { IfOk result (λ bounds. bounds ≡ residue_limits size.now) };

    /// The size of a map of the class. It is admissible.
    ///
    /// # Errors
    ///
    /// The first of the class's rules that the map breaks, or `Memory`, which may come at any map.
    fn size_of(alloc: Global, map: &RootedMap) -> Result<Self::Size, ClassRefusal>
        ensures { answers map.now result };

    /// The map and the residue that the choices give, for an admissible size.
    ///
    /// # Errors
    ///
    /// `List` exactly where the choices aren't valid for the choice bounds, or `Memory`, which may come at any list.
    fn sample(alloc: Global, size: &Self::Size, choices: &[u64]) -> Result<Sample, SampleRefusal>
        requires { is_size size.now }
        ensures { IsSampling (choice_limits size.now) (residue_limits size.now) (has size.now) (samples size.now choices.now) choices.now result }
    {
        let bounds = Self::choice_bounds(alloc, size)?;
        if let Err(refusal) = check_list(choices, &bounds) {
            return Err(SampleRefusal::List(refusal));
        }
        Ok(Self::sample_valid(alloc, size, choices)?)
    }

    /// The map and the residue that choices give which are valid for an admissible size, as those that were drawn.
    ///
    /// # Errors
    ///
    /// `AllocError` where memory runs out.
    fn sample_valid(alloc: Global, size: &Self::Size, choices: &[u64]) -> Result<Sample, AllocError>
        requires size { is_size size.now }
        requires valid { IsValidList choices.now (choice_limits size.now) }
        ensures { IfOk result (λ sample. IsSampled (choice_limits size.now) (residue_limits size.now) (has size.now) (samples size.now choices.now) choices.now sample) }
    {
        let unnamed = Self::sample_unnamed(alloc, size, choices)?;
        let map = canon(alloc, &unnamed.map)?;
        Ok(Sample {
            map,
            residue: unnamed.residue,
        })
    }

    /// The same, with any names of the map's darts: the canonical map of that map is the one that `sample_valid` gives.
    ///
    /// # Errors
    ///
    /// `AllocError` where memory runs out.
    fn sample_unnamed(
        alloc: Global,
        size: &Self::Size,
        choices: &[u64],
    ) -> Result<Sample, AllocError>
        requires size { is_size size.now }
        requires valid { IsValidList choices.now (choice_limits size.now) }
        ensures { IfOk result (λ sample. IsSampledUnnamed (choice_limits size.now) (residue_limits size.now) (has size.now) (samples size.now choices.now) choices.now sample) };

    /// The choices that give the canonical map of the map, and this residue: the one valid list for the map's size that
    /// does.
    ///
    /// # Errors
    ///
    /// `Class` exactly where the map isn't in the class, as [`MapClass::size_of`] says; else `List` exactly where the residue
    /// isn't valid for the residue bounds of the map's size; or `Memory`, which may come at any map.
    fn unsample(alloc: Global, map: &RootedMap, residue: &[u64]) -> Result<NumList, UnsampleRefusal>
        ensures { IsUnsampling choice_limits residue_limits samples answers map.now residue.now result }
    {
        let size = match Self::size_of(alloc, map) {
            Ok(size) => size,
            Err(ClassRefusal::Memory) => return Err(UnsampleRefusal::Memory),
            Err(refusal) => return Err(UnsampleRefusal::Class(refusal)),
        };
        Self::is_one_to_one();
        // Its contract says that the map is a rooted one, which the law of sizes asks for.
        let _edges = map.edges();
        let bounds = Self::residue_bounds(alloc, &size)?;
        if let Err(refusal) = check_list(residue, &bounds) {
            return Err(UnsampleRefusal::List(refusal));
        }
        Ok(Self::unsample_valid(alloc, &size, map, residue)?)
    }

    /// The choices that give the canonical map of a map of this size, and a residue that is valid for it.
    ///
    /// # Errors
    ///
    /// `AllocError` where memory runs out.
    fn unsample_valid(
        alloc: Global,
        size: &Self::Size,
        map: &RootedMap,
        residue: &[u64],
    ) -> Result<NumList, AllocError>
        requires size { answers map.now (Ok size.now) }
        requires valid { IsValidList residue.now (residue_limits size.now) }
        ensures { IfOk result (λ choices. IsUnsampled choice_limits residue_limits samples answers map.now residue.now choices) };

    /// The laws of the class, to call upon; nothing is computed. A map is answered a size exactly where it is in the
    /// class with that size, which is admissible then; want of memory aside, it has one answer and is not without one. At
    /// each size the valid lists of choices are one to one with the pairs of a canonical map and a valid residue, the names
    /// of darts don't matter, and the bounds are neither too many nor too great.
    fn is_one_to_one()
        ensures sized { IsSizeWhereAnswered is_size has answers }
        ensures one_answer { HasOneAnswer answers }
        ensures some_answer { HasSomeAnswer answers }
        ensures one_to_one { (size : Self.Size) → is_size size → AreOneToOne (choice_limits size) (residue_limits size) (has size) (samples size) }
        ensures kept { (size : Self.Size) → is_size size → IsKeptByRenumbering (has size) }
        ensures limits { (size : Self.Size) → is_size size → AreLimits (choice_limits size) (residue_limits size) }
        ensures most_edges { HasMostEdges is_size has MOST_EDGES };
}
