//! Classes that are sampled through a class behind them.
ghost use Rattle.std.specs.Prelude.{◌≡◌, IfOk};
ghost use Rattle.pm_lists.specs.Valid.{IsValidList};
ghost use Rattle.pm_map.specs.Rotation.{RotationSystem};
ghost use Rattle.pm_map.specs.Structure.{Structure};
ghost use Rattle.pm_class.specs.Behind.{AreChoicesOf, AreExchanged, IsSameAsImage, SamplesBehind};
ghost use Rattle.pm_class.specs.OneToOne.{AreOneToOne};
ghost use Rattle.pm_class.specs.Sampling.{IsSampledUnnamed};

use crate::map_class::MapClass;
use crate::sample::Sample;
use pm_lists::NumList;
use pm_map::RootedMap;
use std::alloc::{AllocError, Global};

/// A class whose maps are one to one with those of a class behind it, up to the names of darts, by an image of maps. Its
/// lists of choices and its residues are those of the class behind.
pub trait SampledThrough {
    /// The class behind.
    type Behind: MapClass;

    // The second structure is the image of the first.
    ghost image: { Structure → Structure → Type 0 };

    // The map is in the class and has the size.
    ghost contains: { Self.Behind.Size → RotationSystem → Type 0 };

    /// A map of which one of the class behind is the image.
    ///
    /// # Errors
    ///
    /// `AllocError` where memory runs out.
    fn map_of(
        alloc: Global,
        size: &<Self::Behind as MapClass>::Size,
        behind: &RootedMap,
    ) -> Result<RootedMap, AllocError>
        requires size { Self.Behind.is_size size.now }
        requires in_class { Self.Behind.has size.now behind.now }
        ensures { IfOk result (λ map. IsSameAsImage image map behind.now) };

    /// The image of a map of the class.
    ///
    /// # Errors
    ///
    /// `AllocError` where memory runs out.
    fn behind_of(
        alloc: Global,
        size: &<Self::Behind as MapClass>::Size,
        map: &RootedMap,
    ) -> Result<RootedMap, AllocError>
        requires size { Self.Behind.is_size size.now }
        requires in_class { contains size.now map.now }
        ensures { IfOk result (λ behind. IsSameAsImage image map.now behind) };

    /// The law of the image, to call upon; nothing is computed. At each size the maps of the class and those of the class
    /// behind are one to one by it, up to the names of darts.
    fn is_exchanged()
        ensures { (size : Self.Behind.Size) → Self.Behind.is_size size → AreExchanged image (Self.Behind.has size) (contains size) };
}

/// The map and the residue that choices give which are valid for an admissible size of the class behind: what they give
/// there, and a map of which that map is the image. Its darts have any names.
///
/// # Errors
///
/// `AllocError` where memory runs out.
pub fn sample_unnamed_through<C: SampledThrough>(
    alloc: Global,
    size: &<C::Behind as MapClass>::Size,
    choices: &[u64],
) -> Result<Sample, AllocError>
    requires size { C.Behind.is_size size.now }
    requires valid { IsValidList choices.now (C.Behind.choice_limits size.now) }
    ensures { IfOk result (λ sample. IsSampledUnnamed (C.Behind.choice_limits size.now) (C.Behind.residue_limits size.now) (C.contains size.now) (SamplesBehind C.image (C.Behind.samples size.now) choices.now) choices.now sample) }
{
    C::is_exchanged();
    C::Behind::is_one_to_one();
    let behind = C::Behind::sample_unnamed(alloc, size, choices)?;
    let map = C::map_of(alloc, size, &behind.map)?;
    // Its contract says that the map is a rooted one.
    let _edges = map.edges();
    Ok(Sample {
        map,
        residue: behind.residue,
    })
}

/// The choices that give the canonical map of a map of the class, and a residue that is valid for its size: those that give
/// the canonical map of its image, in the class behind.
///
/// # Errors
///
/// `AllocError` where memory runs out.
pub fn unsample_through<C: SampledThrough>(
    alloc: Global,
    size: &<C::Behind as MapClass>::Size,
    map: &RootedMap,
    residue: &[u64],
) -> Result<NumList, AllocError>
    requires size { C.Behind.is_size size.now }
    requires in_class { C.contains size.now map.now }
    requires valid { IsValidList residue.now (C.Behind.residue_limits size.now) }
    ensures { IfOk result (λ choices. AreChoicesOf (C.Behind.choice_limits size.now) (SamplesBehind C.image (C.Behind.samples size.now)) map.now residue.now choices) }
{
    C::is_exchanged();
    C::Behind::is_one_to_one();
    let behind = C::behind_of(alloc, size, map)?;
    // Their contracts say that the maps are rooted ones.
    let _edges = map.edges();
    let _edges_behind = behind.edges();
    C::Behind::unsample_valid(alloc, size, &behind, residue)
}

/// The law of such a class, to call upon; nothing is computed. At each admissible size of the class behind the valid lists
/// of choices are one to one with the pairs of a canonical map of the class and a valid residue.
pub fn through_is_one_to_one<C: SampledThrough>()
    ensures { (size : C.Behind.Size) → C.Behind.is_size size → AreOneToOne (C.Behind.choice_limits size) (C.Behind.residue_limits size) (C.contains size) (SamplesBehind C.image (C.Behind.samples size)) }
{
    C::is_exchanged();
    C::Behind::is_one_to_one();
}
