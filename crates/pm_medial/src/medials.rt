//! The medial map of a rooted map.
ghost use Rattle.std.specs.Prelude.{◌≡◌, ◌*◌, ◌<◌, ◌≤◌, length, IfOk};
ghost use Rattle.pm_limits.specs.declared.TheConstants.{MAX_EDGES};
ghost use Rattle.pm_medial.specs.Medial.{IsMedialAnswer};
ghost use Rattle.pm_medial.specs.steps.Written.{IsMedialRotation};

use pm_limits::MAX_EDGES;
use pm_map::RootedMap;
use std::alloc::{AllocError, Global};

/// Why a map has no medial map within the limits.
#[derive(Clone, Copy, Debug, PartialEq, Eq)]
pub enum MedialRefusal {
    /// There is no memory left. It may come at any map.
    Memory,
    /// The medial map would have this many edges, twice those of the map, and more than [`pm_limits::MAX_EDGES`].
    TooMany { edges: u64 },
}

impl From<AllocError> for MedialRefusal {
    ghost use Rattle.pm_medial.specs.declared.medials.MedialRefusal.TheVariants.{Memory};

    ghost from_gives = { λ _ refusal. refusal ≡ Memory };

    fn from(_error: AllocError) -> MedialRefusal {
        MedialRefusal::Memory
    }
}

/// The medial map of a map with a dart: a vertex of degree 4 for each edge, where two edges that follow each other around a
/// vertex are joined (Tutte 1963). Dart `d` of the map gives the darts `2d` and `2d + 1`: its plus, and the minus of the
/// dart after it. It has twice as many edges and a face for each vertex and each face. Linear in the darts.
///
/// # Errors
///
/// `TooMany` exactly where twice the edges of the map are more than `MAX_EDGES`, with that number.
pub fn medial(alloc: Global, map: &RootedMap) -> Result<RootedMap, MedialRefusal>
    requires { 0 < length map.now.sigma }
    ensures { IsMedialAnswer map.now result }
{
    let edges = 2 * u64::from(map.edges());
    if edges > u64::from(MAX_EDGES) {
        return Err(MedialRefusal::TooMany { edges });
    }
    let rotation = rotation_of(alloc, map)?;
    Ok(RootedMap::from_rooted_rotation(rotation, 2 * map.root()))
}

// The dart after each dart of the medial map.
fn rotation_of(alloc: Global, map: &RootedMap) -> Result<Vec<u32>, AllocError>
    requires { length map.now.sigma ≤ MAX_EDGES }
    ensures { IfOk result (λ rotation. IsMedialRotation map.now.sigma rotation.items (length map.now.sigma)) }
{
    let mut rotation = vec![in alloc; 0u32; 4 * map.edges() as usize]?;
    write_rotation(map, &mut rotation);
    Ok(rotation)
}

// Writes the dart after each plus and after each minus.
fn write_rotation(map: &RootedMap, rotation: &mut [u32])
    requires few { length map.now.sigma ≤ MAX_EDGES }
    requires size { length rotation.old ≡ 2 * length map.now.sigma }
    ensures { IsMedialRotation map.now.sigma rotation.new (length map.now.sigma) }
{
    'darts: for dart in 0..2 * map.edges() {
        let after = map.next(dart);
        rotation[2 * after as usize] = 2 * dart + 1;
        rotation[2 * dart as usize + 1] = 2 * map.twin(after);
    }
}
