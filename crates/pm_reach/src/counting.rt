//! The maps of a small class, each with the number of its lists of choices.
ghost use Rattle.std.specs.Prelude.{◌≡◌, ◌<◌, ◌≤◌, ◌-◌, ◌^◌, Some, length, slice_get, IfOk, OnOk};
ghost use Rattle.pm_lists.specs.Valid.{AreBounds};
ghost use Rattle.std.specs.Map.{keys_of, values_of};
ghost use Rattle.pm_reach.specs.Census.{IsCensus, IsCensusAnswer, number_of, product, raised};

use crate::lists::{MOST_LISTS, has_few_lists, next_list};
use crate::map_key::MapKey;
use indexmap::IndexMap;
use pm_class::MapClass;
use pm_map::RootedMap;
use std::alloc::{AllocError, Global};
use std::marker::Model;

/// Why there is no census.
#[derive(Clone, Copy, Debug, PartialEq, Eq)]
pub enum CensusRefusal {
    /// There is no memory left. It may come at any size.
    Memory,
    /// The product of the choice bounds is above [`MOST_LISTS`].
    TooManyLists,
}

impl From<AllocError> for CensusRefusal {
    ghost use Rattle.pm_reach.specs.declared.counting.CensusRefusal.TheVariants.{Memory};

    ghost from_gives = { λ _ refusal. refusal ≡ Memory };

    fn from(_error: AllocError) -> CensusRefusal {
        CensusRefusal::Memory
    }
}

/// Maps, each with the number of its valid lists of choices. Contracts see it as a list of pairs of a map and its number.
#[derive(Drop)]
pub struct CensusList {
    numbers: IndexMap<MapKey, u64>,
}

impl Model for CensusList {
    ghost use Rattle.std.specs.Prelude.{◌≤◌, List, ℕ, length};
    ghost use Rattle.pm_map.specs.Rotation.{RotationSystem};
    ghost use Rattle.pm_reach.specs.declared.lists.TheConstants.{MOST_LISTS};

    ghost Value = { List (RotationSystem × ℕ) };

    ghost view = { λ census. census.numbers.entries };

    ghost invariant = { λ census. length census.numbers.entries ≤ MOST_LISTS };
}

impl CensusList {
    /// How many maps there are.
    pub fn len(&self) -> u32
        ensures { result ≡ length self.now }
    {
        self.numbers.len() as u32
    }

    /// The map at this place, counted from 0, in its canonical numbering.
    pub fn map(&self, k: u32) -> &RootedMap
        requires { k < length self.now }
        ensures { slice_get (keys_of self.now) k ≡ Some result.now }
    {
        let (key, _) = self.numbers.get_index(k as usize).unwrap();
        key.map()
    }

    /// How many valid lists of choices give the map at this place.
    pub fn lists(&self, k: u32) -> u64
        requires { k < length self.now }
        ensures { slice_get (values_of self.now) k ≡ Some result }
    {
        self.numbers[k as usize]
    }
}

/// The maps of a class and an admissible size, each with the number of valid lists of choices that give it. They stand in
/// the order in which they are first met when the lists are taken in dictionary order, whose first entry weighs most.
///
/// # Errors
///
/// `TooManyLists` exactly where the product of the choice bounds is above [`MOST_LISTS`], or `Memory`, which may come at any
/// size.
pub fn census<C: MapClass>(alloc: Global, size: &C::Size) -> Result<CensusList, CensusRefusal>
    requires { C.is_size size.now }
    ensures { IsCensusAnswer (C.choice_limits size.now) (C.samples size.now) result }
{
    let bounds = C::choice_bounds(alloc, size)?;
    if !has_few_lists(bounds.values()) {
        return Err(CensusRefusal::TooManyLists);
    }
    let numbers = count_lists::<C>(alloc, size, bounds.values())?;
    Ok(CensusList { numbers })
}

/// The maps that the valid lists give, each with the number of its lists.
fn count_lists<C: MapClass>(
    alloc: Global,
    size: &C::Size,
    bounds: &[u64],
) -> Result<IndexMap<MapKey, u64>, AllocError>
    requires size { C.is_size size.now }
    requires bounds { bounds.now ≡ C.choice_limits size.now }
    requires some { AreBounds bounds.now }
    requires few { product bounds.now ≤ MOST_LISTS }
    ensures { IfOk result (λ numbers. IsCensus (C.choice_limits size.now) (C.samples size.now) numbers.entries) }
{
    let mut numbers = IndexMap::new(alloc);
    let mut choices = vec![in alloc; 0; bounds.len()]?;
    let mut more = true;
    'lists: while more {
        let sample = C::sample_valid(alloc, size, &choices)?;
        count_map(&mut numbers, sample.map)?;
        more = next_list(&mut choices, bounds);
    }
    Ok(numbers)
}

/// Counts one more list of the map. A new map goes last.
fn count_map(numbers: &mut IndexMap<MapKey, u64>, map: RootedMap) -> Result<(), AllocError>
    requires { number_of map numbers.old.entries < 2 ^ 64 - 1 }
    ensures { OnOk result (numbers.new.entries ≡ raised map numbers.old.entries) }
{
    let key = MapKey::of(map);
    let number = numbers.get(&key).copied().unwrap_or(0);
    numbers.insert(key, number + 1)?;
    Ok(())
}
