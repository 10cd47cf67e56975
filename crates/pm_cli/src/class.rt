//! The classes of maps that commands know, their sizes, the words of both, and their laws.
ghost use Rattle.std.specs.Prelude.{◌≡◌, ◌≢◌, ℕ, ◌<◌, ◌^◌, List, decimal, string_bytes, IfOk, MatchOption};
ghost use Rattle.pm_cli.specs.declared.class.Class.{Class};
ghost use Rattle.pm_cli.specs.declared.class.Class.TheVariants.{Eulerian as AClass};
ghost use Rattle.pm_cli.specs.declared.class.Checked.TheVariants.{Tri as AChecked};
ghost use Rattle.pm_cli.specs.declared.class.Size.{Size};
ghost use Rattle.pm_cli.specs.Classes.{sampler_of, class_of, IsSize, class_word, checked_word, size_word};
ghost use Rattle.pm_cli.specs.steps.ClassLaws.{IsSampler};

use crate::laws::law;
use crate::profile_word::{read_profile, small_number};
use pm_class::MapClass;
use pm_euler::{Eulerian, Quartic};
use pm_general::{Bipartite, General};
use pm_trees::Profile;
use std::alloc::{AllocError, Global};

/// A class of maps that can be sampled.
#[derive(Clone, Copy)]
pub enum Class {
    /// Any plane map.
    General,
    /// Every vertex has degree 4.
    Quartic,
    /// Every vertex has an even degree.
    Eulerian,
    /// Every face has an even degree.
    Bipartite,
}

/// A class of maps that `check` knows.
#[derive(Clone, Copy)]
pub enum Checked {
    /// One that can be sampled.
    Sampled(Class),
    /// Simple triangulations: every face has degree 3, no edge is a loop, and no two have the same ends.
    Tri,
}

/// A class, and the size of a map of it.
#[derive(Drop)]
pub enum Size {
    /// So many edges.
    General(u32),
    /// So many vertices of degree 4.
    Quartic(u32),
    /// So many vertices of each degree.
    Eulerian(Profile),
    /// So many faces of each degree.
    Bipartite(Profile),
}

// Values that one word of a command spells.
pub(crate) trait Spelled: Copy {
    // The word of each value.
    ghost word_of: { Self → List ℕ };

    // One of the values.
    ghost some: { Self };

    // The value that the word spells, where there is one.
    fn of_word(word: &String) -> Option<Self>
        ensures { MatchOption result ((it : Self) → string_bytes word.now ≢ word_of it) (λ it. string_bytes word.now ≡ word_of it) };
}

impl Spelled for Class {
    ghost word_of = { class_word };

    ghost some = { AClass };

    fn of_word(word: &String) -> Option<Class> {
        match word.as_str() {
            "general" => Some(Class::General),
            "quartic" => Some(Class::Quartic),
            "eulerian" => Some(Class::Eulerian),
            "bipartite" => Some(Class::Bipartite),
            _ => None,
        }
    }
}

impl Spelled for Checked {
    ghost word_of = { checked_word };

    ghost some = { AChecked };

    fn of_word(word: &String) -> Option<Checked> {
        match word.as_str() {
            "tri" => Some(Checked::Tri),
            _ => Class::of_word(word).map(Checked::Sampled),
        }
    }
}

// The size of the class that the word spells as a number, where there is one.
fn number_size<C: MapClass<Size = u32>>(word: &String) -> Option<u32>
    requires few { (size : ℕ) → C.is_size size → size < 2 ^ 32 }
    ensures { MatchOption result
        ((size : ℕ) → C.is_size size → string_bytes word.now ≢ decimal size)
        (λ size. C.is_size size × (string_bytes word.now ≡ decimal size)) }
{
    let size = small_number(word.as_str())?;
    if C::admissible(&size) {
        Some(size)
    } else {
        None
    }
}

impl Size {
    // The size of the class that the word spells, where there is one.
    pub(crate) fn of_word(
        alloc: Global,
        class: Class,
        word: &String,
    ) -> Result<Option<Size>, AllocError>
        ensures { IfOk result (λ found. MatchOption found
            ((size : Size) → class_of size ≡ class → IsSize size → string_bytes word.now ≢ size_word size)
            (λ size. (class_of size ≡ class) × IsSize size × (string_bytes word.now ≡ size_word size))) }
    {
        match class {
            Class::General => Ok(number_size::<General>(word).map(Size::General)),
            Class::Quartic => Ok(number_size::<Quartic>(word).map(Size::Quartic)),
            Class::Eulerian => Ok(read_profile(alloc, word.as_str())?.map(Size::Eulerian)),
            Class::Bipartite => Ok(read_profile(alloc, word.as_str())?.map(Size::Bipartite)),
        }
    }
}

// The laws of each class, to call upon; nothing is computed.
pub(crate) fn each_class_has_laws()
    ensures { (class : Class) → IsSampler (sampler_of class) }
{
    law::<General>();
    law::<Quartic>();
    law::<Eulerian>();
    law::<Bipartite>();
}
