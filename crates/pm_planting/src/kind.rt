//! What the objects of a plane tree are that has a bud pattern at each node.
ghost use Rattle.std.specs.Prelude.{◌≡◌};
ghost use Rattle.pm_planting.specs.Kinds.{half_of};

/// What an object is.
#[derive(Clone, Copy, Debug, PartialEq, Eq)]
pub enum Kind {
    /// A leaf.
    Leaf,
    /// A node of twice this half degree, whose bud pattern has this rank.
    Node { half: u32, rank: u64 },
}

impl Kind {
    /// Half of the degree of a node, which is how many children it has; a leaf has none.
    pub fn half(self) -> u32
        ensures { result ≡ half_of self }
    {
        match self {
            Kind::Leaf => 0,
            Kind::Node { half, .. } => half,
        }
    }
}
