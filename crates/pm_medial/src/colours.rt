//! The two colours of the faces of a map with even degrees.
ghost use Rattle.std.specs.Prelude.{◌≡◌, IfOk};
ghost use Rattle.pm_map.specs.Rotation.{structure_of};
ghost use Rattle.pm_distances.specs.AcrossEdges.{AllDegreesAreEven};
ghost use Rattle.pm_medial.specs.Colouring.{AreColours, IsColourAnswer};

use pm_distances::face_distances;
use pm_map::{Degrees, RootedMap};
use std::alloc::{AllocError, Global};

/// Why the faces of a map don't have two colours.
#[derive(Clone, Copy, Debug, PartialEq, Eq)]
pub enum ColourRefusal {
    /// There is no memory left. It may come at any map.
    Memory,
    /// The vertex of a dart has an odd degree, and this is the least such dart.
    OddDegree { dart: u32 },
}

impl From<AllocError> for ColourRefusal {
    ghost use Rattle.pm_medial.specs.declared.colours.ColourRefusal.TheVariants.{Memory};

    ghost from_gives = { λ _ refusal. refusal ≡ Memory };

    fn from(_error: AllocError) -> ColourRefusal {
        ColourRefusal::Memory
    }
}

/// The colours of the faces of a map whose degrees are even, however great: entry `d` is the colour of the face of dart
/// `d`, the root's face has the colour true, and two faces with an edge between them have different ones. Linear in the
/// darts.
///
/// # Errors
///
/// `OddDegree` exactly where some vertex has an odd degree, with the least dart of such a vertex.
pub fn colour(alloc: Global, map: &RootedMap) -> Result<Vec<bool>, ColourRefusal>
    ensures { IsColourAnswer map.now result }
{
    // No degree is above the number of darts.
    let even = Degrees::EvenUpTo {
        greatest: 2 * map.edges(),
    };
    if let Some(dart) = map.vertex_of_other_degree(alloc, even)? {
        return Err(ColourRefusal::OddDegree { dart });
    }
    Ok(colours_of(alloc, map)?)
}

/// The colours of the faces of a map whose degrees are even: whether they are an even number of edges away from the root's
/// face.
pub(crate) fn colours_of(alloc: Global, map: &RootedMap) -> Result<Vec<bool>, AllocError>
    requires { AllDegreesAreEven (structure_of map.now) }
    ensures { IfOk result (λ colours. AreColours map.now colours.items) }
{
    let count = map.sigma().len();
    let distances = face_distances(alloc, map)?;
    let mut colours = Vec::with_capacity(alloc, count)?;
    'darts: for dart in 0..count {
        colours.push(distances[dart] % 2 == 0)?;
    }
    Ok(colours)
}
