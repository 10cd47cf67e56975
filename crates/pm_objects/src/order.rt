//! The order of the objects, from the codes of their ranges.
ghost use Rattle.std.specs.Prelude.{◌≡◌, ℕ, ◌+◌, ◌-◌, ◌<◌, ◌≤◌, ◌^◌, ◌==◌, List, length, map, slice_index, count_by, cond, take, EachIndex, IfOk};
ghost use Rattle.pm_lehmer.specs.Lehmer.{IsArrangementCode, IsArrangementOf};
ghost use Rattle.pm_words.specs.Word.{turned};
ghost use Rattle.pm_objects.specs.Codes.{AreObjectsOf};
ghost use Rattle.pm_objects.specs.Objects.{AreApart, nodes_of_ranges};

use pm_lehmer::arrange;
use pm_words::rotate;
use std::alloc::{AllocError, Global};

/// The objects of these ranges, of which those with each arity stand where the list says so, in the order that the range's
/// code tells. The codes of the ranges stand one after another, and behind them that of the leaf objects.
///
/// # Errors
///
/// `AllocError` where memory runs out.
pub fn objects_of_codes(
    alloc: Global,
    ranges: &[(u32, u32)],
    arities: &[u32],
    codes: &[u64],
) -> Result<Vec<u32>, AllocError>
    requires apart { AreApart ranges.now }
    requires nodes { nodes_of_ranges ranges.now ≤ length arities.now }
    requires as_long { length codes.now ≡ length arities.now }
    requires few { length arities.now < 2 ^ 32 }
    requires some { (objects : List ℕ) × AreObjectsOf ranges.now arities.now codes.now objects }
    ensures { IfOk result (λ objects. AreObjectsOf ranges.now arities.now codes.now objects.items) }
{
    let mut objects = vec![in alloc; 0u32; arities.len()]?;
    let mut first = 0;
    'each_range: for range in ranges {
        let next = first + range.1;
        let nodes = arrange_from(alloc, first, &codes[first as usize..next as usize])?;
        put_objects(arities, range.0, &nodes, &mut objects);
        first = next;
    }
    let leaves = arrange_from(alloc, first, &codes[first as usize..])?;
    put_objects(arities, 0, &leaves, &mut objects);
    Ok(objects)
}

/// The arrangement with this code of the numbers from this one on.
fn arrange_from(alloc: Global, first: u32, code: &[u64]) -> Result<Vec<u32>, AllocError>
    requires few { first + length code.now < 2 ^ 32 }
    requires is_code { IsArrangementCode code.now }
    ensures list { IfOk result (λ list. (order : List ℕ) → IsArrangementOf code.now order → list.items ≡ map (λ number. first + number) order) }
    ensures long { IfOk result (λ list. length list.items ≡ length code.now) }
{
    let mut list = arrange(alloc, code)?;
    raise(&mut list, first);
    Ok(list)
}

/// Adds so much to each number.
fn raise(list: &mut [u32], first: u32)
    requires { EachIndex list.old (λ place. first + slice_index list.old place < 2 ^ 32) }
    ensures { list.new ≡ map (λ number. first + number) list.old }
{
    'places: for place in 0..list.len() {
        list[place] += first;
    }
}

/// Puts the objects of the list, which are of this arity, at its places. Each place is written, those of others with what
/// is there, so that no step branches.
fn put_objects(arities: &[u32], arity: u32, list: &[u32], objects: &mut [u32])
    requires as_long { length objects.old ≡ length arities.now }
    requires many { length list.now ≡ count_by (λ y. y == arity) arities.now }
    ensures as_long { length objects.new ≡ length arities.now }
    ensures here { (place : ℕ) → place < length arities.now → slice_index arities.now place ≡ arity → slice_index objects.new place ≡ slice_index list.now (count_by (λ y. y == arity) (take place arities.now)) }
    ensures others { (place : ℕ) → place < length arities.now → (slice_index arities.now place ≡ arity → ⊥) → slice_index objects.new place ≡ slice_index objects.old place }
{
    let mut next = 0;
    'arities: for (place, other) in arities.iter().enumerate() {
        if next == list.len() {
            break 'arities;
        }
        let is_here = *other == arity;
        objects[place] = chosen(is_here, list[next], objects[place]);
        next += usize::from(is_here);
    }
}

/// The first number where the test holds, and else the second.
fn chosen(test: bool, first: u32, second: u32) -> u32
    ensures { result ≡ cond test first second }
{
    if test { first } else { second }
}

/// The list that, read cyclically from the start, is these objects.
///
/// # Errors
///
/// `AllocError` where memory runs out.
pub fn turned_back(alloc: Global, objects: &[u32], start: u32) -> Result<Vec<u32>, AllocError>
    requires start { start < length objects.now }
    requires few { length objects.now < 2 ^ 32 }
    ensures { IfOk result (λ list. list.items ≡ turned (length objects.now - start) objects.now) }
{
    if start == 0 {
        return Vec::from_slice(alloc, objects);
    }
    rotate(alloc, objects, objects.len() as u32 - start)
}
