ghost use Rattle.std.specs.Prelude.{◌≡◌};

use std::alloc::AllocError;

/// Why a rotation and a root make no rooted map. Each comes exactly where its rule is the first that fails, in this
/// order.
#[derive(Clone, Copy, Debug, PartialEq, Eq)]
pub enum MapRefusal {
    /// There is no memory left. It may come at any rotation.
    Memory,
    /// There are more than [`pm_limits::MAX_EDGES`] edges, and this many.
    TooMany { edges: u64 },
    /// The rotation is no permutation, and this is the least dart that it leaves out.
    NotPermutation { dart: u32 },
    /// The map isn't connected, and this is the least dart that isn't reached from the root.
    NotConnected { dart: u32 },
    /// The map isn't plane: vertices less edges plus faces is this number, and not 2.
    Genus { euler: i64 },
}

impl From<AllocError> for MapRefusal {
    ghost use Rattle.pm_map.specs.declared.refusal.MapRefusal.TheVariants.{Memory};

    ghost from_gives = { λ _ refusal. refusal ≡ Memory };

    fn from(_error: AllocError) -> MapRefusal {
        MapRefusal::Memory
    }
}
