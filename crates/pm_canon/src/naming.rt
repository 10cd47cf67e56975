ghost use Rattle.std.specs.Prelude.{◌≡◌, ◌*◌, ◌%◌, ◌<◌, ◌≤◌, length, map, slice_index, IfOk};
ghost use Rattle.pm_limits.specs.declared.TheConstants.{MAX_EDGES};
ghost use Rattle.pm_perm.specs.Permutation.{IsPermutationList, IsPermutationBelow};
ghost use Rattle.pm_canon.specs.MeetingOrder.{HasEachOnce};
ghost use Rattle.pm_canon.specs.steps.Naming.{AreUnnamed, NamesEdge, NamesMentions, IsRenamed};

use pm_map::twin_of;
use std::alloc::{AllocError, Global};

/// What stands for the name of a dart of an edge that isn't mentioned yet. No name is as great.
const UNNAMED: u32 = u32::MAX;

/// The name of each dart by the order in which the list mentions the edges first. The darts of the list become their names.
pub fn names_of(alloc: Global, darts: &mut [u32], size: usize) -> Result<Vec<u32>, AllocError>
    requires even { size % 2 ≡ 0 }
    requires few { size ≤ 2 * MAX_EDGES }
    requires once { HasEachOnce size darts.old }
    ensures size { IfOk result (λ names. length names.items ≡ size) }
    ensures names { IfOk result (λ names. NamesMentions darts.old names.items) }
    ensures named { IfOk result (λ names. darts.new ≡ map (slice_index names.items) darts.old) }
{
    let mut names = vec![in alloc; UNNAMED; size]?;
    name_all(darts, &mut names);
    Ok(names)
}

/// Names each edge where it is first mentioned, and writes the name of each dart in its place. No dart has a name before.
fn name_all(darts: &mut [u32], names: &mut [u32])
    requires even { length names.old % 2 ≡ 0 }
    requires few { length names.old ≤ 2 * MAX_EDGES }
    requires once { HasEachOnce (length names.old) darts.old }
    requires unnamed { AreUnnamed names.old }
    ensures names { NamesMentions darts.old names.new }
    ensures named { darts.new ≡ map (slice_index names.new) darts.old }
{
    let mut name = 0;
    'name: for place in 0..darts.len() {
        let dart = darts[place];
        name = name_edge(dart, name, names);
        darts[place] = names[dart as usize];
    }
}

/// Names the edge of the dart where it has no name, and answers the next name.
fn name_edge(dart: u32, name: u32, names: &mut [u32]) -> u32
    requires even { length names.old % 2 ≡ 0 }
    requires within { dart < length names.old }
    requires few { name ≤ 4 * MAX_EDGES }
    ensures { NamesEdge dart name names.old names.new result }
{
    if names[dart as usize] != UNNAMED {
        return name;
    }
    names[dart as usize] = name;
    names[twin_of(dart) as usize] = name + 1;
    name + 2
}

/// The rotation in which each dart goes by its name.
pub fn renamed(alloc: Global, sigma: &[u32], names: &[u32]) -> Result<Vec<u32>, AllocError>
    requires size { length names.now ≡ length sigma.now }
    requires rotation { IsPermutationList sigma.now }
    requires names { IsPermutationList names.now }
    ensures { IfOk result (λ renamed. IsRenamed names.now sigma.now renamed.items) }
{
    let mut new = vec![in alloc; 0; sigma.len()]?;
    rename_all(sigma, names, &mut new);
    Ok(new)
}

/// Writes the rotation in which each dart goes by its name.
fn rename_all(sigma: &[u32], names: &[u32], new: &mut [u32])
    requires size { length names.now ≡ length sigma.now }
    requires new_size { length new.old ≡ length sigma.now }
    requires rotation { IsPermutationList sigma.now }
    requires names { IsPermutationList names.now }
    ensures { IsRenamed names.now sigma.now new.new }
{
    'rename: for dart in 0..sigma.len() {
        new[names[dart] as usize] = names[sigma[dart] as usize];
    }
}
