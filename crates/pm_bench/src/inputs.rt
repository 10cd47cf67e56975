//! Inputs made by arithmetic, the same in each run.
ghost use Rattle.std.specs.Prelude.{◌≡◌, ℕ, suc, ◌*◌, ◌%◌, ◌<◌, ◌≤◌, length, slice_index, IfOk};
ghost use Rattle.pm_lehmer.specs.Lehmer.{IsArrangementCode};
ghost use Rattle.pm_remy.specs.Growth.{IsChoices};

use crate::orders::Shape;
use pm_limits::MAX_EDGES;
use std::alloc::{AllocError, Global};

// One step of a linear congruential generator modulo 2^64 (Knuth's MMIX).
fn next_state(state: u64) -> u64 {
    state
        .wrapping_mul(6_364_136_223_846_793_005)
        .wrapping_add(1_442_695_040_888_963_407)
}

// The number that the upper half of a state gives below a bound.
fn below(bound: u64, state: u64) -> u64
    requires { 0 < bound }
    ensures { result < bound }
{
    (state >> 32) % bound
}

/// So many numbers, no two of which are the same: a linear congruential generator modulo 2^32 comes to each number once
/// in a turn (Numerical Recipes).
///
/// # Errors
///
/// `AllocError` where memory runs out.
pub fn different_numbers(alloc: Global, size: usize) -> Result<Vec<u32>, AllocError>
    ensures length { IfOk result (λ v. length v.items ≡ size) }
{
    let mut numbers = vec![in alloc; 0u32; size]?;
    let mut number = 0u32;
    for place in &mut numbers {
        number = number.wrapping_mul(1_664_525).wrapping_add(1_013_904_223);
        *place = number;
    }
    Ok(numbers)
}

/// A drawn arrangement code of that length.
///
/// # Errors
///
/// `AllocError` where memory runs out.
pub fn drawn_code(alloc: Global, size: usize) -> Result<Vec<u64>, AllocError>
    ensures is_code { IfOk result (λ v. IsArrangementCode v.items) }
    ensures length { IfOk result (λ v. length v.items ≡ size) }
{
    let mut code = vec![in alloc; 0u64; size]?;
    draw_code(&mut code);
    Ok(code)
}

// Draws each entry below the length less its place.
fn draw_code(code: &mut [u64])
    ensures is_code { IsArrangementCode code.new }
    ensures length { length code.new ≡ length code.old }
{
    let mut state = 0u64;
    'places: for place in 0..code.len() {
        state = next_state(state);
        code[place] = below((code.len() - place) as u64, state);
    }
}

/// So many choices, which grow a tree of the shape.
///
/// # Errors
///
/// `AllocError` where memory runs out.
pub fn choices(alloc: Global, size: usize, shape: Shape) -> Result<Vec<u64>, AllocError>
    requires few { size ≤ MAX_EDGES }
    ensures valid { IfOk result (λ v. IsChoices v.items) }
    ensures length { IfOk result (λ v. length v.items ≡ size) }
{
    let mut choices = vec![in alloc; 0u64; size]?;
    match shape {
        Shape::Drawn => draw_choices(&mut choices),
        Shape::Path => choose_path(&mut choices),
    }
    Ok(choices)
}

// Draws each choice among the names and sides that the tree has then.
fn draw_choices(choices: &mut [u64])
    requires few { length choices.old ≤ MAX_EDGES }
    ensures valid { IsChoices choices.new }
    ensures length { length choices.new ≡ length choices.old }
{
    let mut state = 0u64;
    'places: for place in 0..choices.len() {
        state = next_state(state);
        choices[place] = below(4 * place as u64 + 2, state);
    }
}

// Chooses the newest leaf each time, and its right side.
fn choose_path(choices: &mut [u64])
    requires few { length choices.old ≤ MAX_EDGES }
    ensures valid { IsChoices choices.new }
    ensures length { length choices.new ≡ length choices.old }
{
    'places: for place in 0..choices.len() {
        choices[place] = 4 * place as u64;
    }
}

/// The rotation of so many loops side by side at one vertex.
///
/// # Errors
///
/// `AllocError` where memory runs out.
pub fn loops(alloc: Global, edges: usize) -> Result<Vec<u32>, AllocError>
    requires { edges ≤ MAX_EDGES }
    ensures length { IfOk result (λ v. length v.items ≡ 2 * edges) }
    ensures around { IfOk result (λ v. (dart : ℕ) → dart < 2 * edges → slice_index v.items dart ≡ suc dart % (2 * edges)) }
{
    let mut sigma = vec![in alloc; 0u32; 2 * edges]?;
    go_around(&mut sigma);
    Ok(sigma)
}

// Lets each dart be followed by the next, and the last by the first.
fn go_around(sigma: &mut [u32])
    requires few { length sigma.old ≤ 2 * MAX_EDGES }
    ensures length { length sigma.new ≡ length sigma.old }
    ensures around { (dart : ℕ) → dart < length sigma.old → slice_index sigma.new dart ≡ suc dart % length sigma.old }
{
    'darts: for dart in 0..sigma.len() {
        sigma[dart] = ((dart + 1) % sigma.len()) as u32;
    }
}
