ghost use Rattle.std.specs.Prelude.{◌≡◌};

use std::alloc::AllocError;

/// Why a map is in no class of the kind that is asked for. Each comes exactly where its rule is one of the class and is
/// the first that fails, in this order, and carries the least dart that breaks it.
#[derive(Clone, Copy, Debug, PartialEq, Eq)]
pub enum ClassRefusal {
    /// There is no memory left. It may come at any map.
    Memory,
    /// The map has no dart. It is the first rule of every class but that of the general maps, which doesn't have it.
    Empty,
    /// There are more edges than the class takes, and this many.
    TooMany { edges: u64 },
    /// The vertex of this dart has a degree that the class doesn't have.
    Vertex { dart: u32 },
    /// The face of this dart has a degree that the class doesn't have.
    Face { dart: u32 },
    /// The twin of this dart is at the dart's own vertex.
    Loop { dart: u32 },
    /// Another dart has the same vertex as this one and the same far vertex, that of the twin.
    Double { dart: u32 },
}

impl From<AllocError> for ClassRefusal {
    ghost use Rattle.pm_map.specs.declared.class_refusal.ClassRefusal.TheVariants.{Memory};

    ghost from_gives = { λ _ refusal. refusal ≡ Memory };

    fn from(_error: AllocError) -> ClassRefusal {
        ClassRefusal::Memory
    }
}
