ghost use Rattle.std.specs.Prelude.{◌≡◌, ℕ};

use crate::letters::LEAF;
use pm_brackets::{OPEN, letters_before, occurrences};
use std::alloc::AllocError;
use std::marker::Model;

/// Why a word isn't the word of a blossoming tree, in the order in which the rules are tried. A place counts from 1 along
/// the word; the root node is named by 0, and every other node by the place of its `(`.
#[derive(Clone, Copy, Debug, PartialEq, Eq)]
pub enum TreeRefusal {
    /// There is no memory left. It may come at any word.
    Memory,
    /// A letter that is none of the four, a `)` that closes nothing or the last `(` that isn't closed: the least such place.
    Text { place: u32 },
    /// More letters than twice `MAX_EDGES` less one: how many.
    TooMany { letters: u64 },
    /// The least node whose degree is odd or above `MAX_DEGREE`.
    Degree { place: u32 },
    /// The least node of some degree 2i that hasn't i-1 buds.
    Buds { place: u32 },
}

impl From<AllocError> for TreeRefusal {
    ghost use Rattle.pm_trees.specs.declared.tree.TreeRefusal.TheVariants.{Memory};

    ghost from_gives = { λ _ refusal. refusal ≡ Memory };

    fn from(_error: AllocError) -> TreeRefusal {
        TreeRefusal::Memory
    }
}

/// A blossoming tree (Schaeffer 1997), seen as the letters of its word.
#[derive(Drop)]
pub struct Tree {
    pub(crate) letters: Vec<u8>,
}

impl Model for Tree {
    ghost use Rattle.std.specs.Prelude.{List, ℕ};
    ghost use Rattle.pm_trees.specs.Blossoming.{IsBlossoming};

    ghost Value = { List ℕ };

    ghost view = { λ t. t.letters.items };

    ghost invariant = { λ t. IsBlossoming t.letters.items };
}

impl Tree {
    ghost use Rattle.std.specs.Prelude.{◌+◌, ◌*◌, ◌≤◌, suc, length, take};
    ghost use Rattle.pm_trees.specs.Word.{contour};
    ghost use Rattle.pm_brackets.specs.Word.{count};
    ghost use Rattle.pm_trees.specs.Blossoming.{IsBlossoming, edges, nodes, leaves};
    ghost use Rattle.pm_trees.specs.declared.letters.TheConstants.{BUD};

    /// The tree with this word, where it is the word of a blossoming tree.
    pub fn of_word(letters: Vec<u8>) -> Tree
        requires { IsBlossoming letters.items }
        ensures { result ≡ letters.items }
    {
        Tree { letters }
    }

    /// The letters of the word, in order; the k-th, from 1, stands at place k. With the plant there are two more leaves
    /// than buds.
    #[tactic(auto, using(crate::proofs::Balance::two_more_leaves))]
    pub fn letters(&self) -> &[u8]
        ensures letters { result.now ≡ self.now }
        ensures valid { IsBlossoming self.now }
        ensures balanced { count LEAF (contour self.now) ≡ count BUD (contour self.now) + 2 }
    {
        &self.letters
    }

    /// The edges of the tree's closure: half of the letters and the plant together.
    pub fn edges(&self) -> u32
        ensures edges { result ≡ edges self.now }
        ensures exact { 2 * result ≡ suc (length self.now) }
    {
        ((self.letters.len() + 1) / 2) as u32
    }

    /// The nodes, the root node among them.
    pub fn nodes(&self) -> u32
        ensures { result ≡ nodes self.now }
    {
        occurrences(&self.letters, OPEN) + 1
    }

    /// The leaves, the plant among them.
    pub fn leaves(&self) -> u32
        ensures { result ≡ leaves self.now }
    {
        occurrences(&self.letters, LEAF) + 1
    }

    /// How many leaves stand before this place of the contour, the plant among them: the number of a leaf, from 0, where
    /// one stands at the place.
    pub fn leaves_before(&self, place: u32) -> u32
        requires { place ≤ length self.now }
        ensures { result ≡ count LEAF (take place (contour self.now)) }
    {
        letters_before(&self.letters, LEAF, place)
    }
}
