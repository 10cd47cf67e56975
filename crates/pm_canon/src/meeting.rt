ghost use Rattle.std.specs.Prelude.{◌≡◌, ◌+◌, ◌<◌, length, IfOk, OnOk, false, slice_get, Some, vec_len, []};
ghost use Rattle.pm_map.specs.Rotation.{IsRootedMap, RotationSystem, structure_of};
ghost use Rattle.pm_canon.specs.steps.Kept.{IsKept, AppendsVertex, IsMeeting};
ghost use Rattle.pm_canon.specs.MeetingOrder.{IsMeetingOrder};
ghost use Rattle.pm_canon.specs.steps.Sizing.{AreSized};

use pm_map::twin_of;
use std::alloc::{AllocError, Global};

/// The vertices of a map in the order in which they are met from the root, each from the dart at which it is met.
#[derive(Drop)]
pub struct VertexList {
    /// The darts of all vertices, one vertex after another.
    pub darts: Vec<u32>,
    /// How many darts each vertex has.
    pub sizes: Vec<u32>,
}

/// The darts of the rooted map with this rotation and root, vertex by vertex, in the order in which its vertices are met from
/// the root, each from the dart at which it is met. It takes time linear in the darts.
///
/// # Errors
///
/// Where memory runs out.
pub fn meeting_list(alloc: Global, sigma: &[u32], root: u32) -> Result<Vec<u32>, AllocError>
    requires { IsRootedMap (record { sigma = sigma.now; root = root }) }
    ensures { IfOk result (λ darts. IsMeetingOrder (structure_of (record { sigma = sigma.now; root = root })) darts.items) }
{
    let VertexList {
        darts,
        sizes: _sizes,
    } = vertices_met(alloc, sigma, root)?;
    Ok(darts)
}

/// The vertices in the order in which they are met from the root.
pub(crate) fn vertices_met(
    alloc: Global,
    sigma: &[u32],
    root: u32,
) -> Result<VertexList, AllocError>
    requires { IsRootedMap (record { sigma = sigma.now; root = root }) }
    ensures met { IfOk result (λ list. IsMeetingOrder (structure_of (record { sigma = sigma.now; root = root })) list.darts.items) }
    ensures sized { IfOk result (λ list. AreSized (structure_of (record { sigma = sigma.now; root = root })) list.darts.items list.sizes.items) }
{
    let mut darts = Vec::with_capacity(alloc, sigma.len())?;
    let mut sizes = Vec::new(alloc);
    if sigma.is_empty() {
        return Ok(VertexList { darts, sizes });
    }
    let mut marks = vec![in alloc; false; sigma.len()]?;
    meet_all(sigma, root, &mut marks, &mut darts, &mut sizes)?;
    Ok(VertexList { darts, sizes })
}

/// Appends all vertices in the order in which they are met, and their sizes. No dart is marked before.
fn meet_all(
    sigma: &[u32],
    root: u32,
    marks: &mut [bool],
    darts: &mut Vec<u32>,
    sizes: &mut Vec<u32>,
) -> Result<(), AllocError>
    requires map { IsRootedMap (record { sigma = sigma.now; root = root }) }
    requires some { 0 < length sigma.now }
    requires size { length marks.old ≡ length sigma.now }
    requires unmarked { slice_get marks.old root ≡ Some false }
    requires empty { darts.old.items ≡ [] }
    requires no_size { sizes.old.items ≡ [] }
    requires kept { IsKept (structure_of (record { sigma = sigma.now; root = root })) marks.old [] }
    ensures met { OnOk result (IsMeetingOrder (structure_of (record { sigma = sigma.now; root = root })) darts.new.items) }
    ensures sized { OnOk result (AreSized (structure_of (record { sigma = sigma.now; root = root })) darts.new.items sizes.new.items) }
{
    append_sized(sigma, root, root, marks, darts, sizes)?;
    let mut place = 0;
    'meet: while place < darts.len() {
        meet_twin(sigma, root, place, marks, darts, sizes)?;
        place += 1;
    }
    Ok(())
}

/// Appends the vertex of the twin of the dart at this place, and its size, unless that twin is marked.
fn meet_twin(
    sigma: &[u32],
    root: u32,
    place: usize,
    marks: &mut [bool],
    darts: &mut Vec<u32>,
    sizes: &mut Vec<u32>,
) -> Result<(), AllocError>
    requires map { IsRootedMap (record { sigma = sigma.now; root = root }) }
    requires size { length marks.old ≡ length sigma.now }
    requires within { place < vec_len darts.old }
    requires meeting { IsMeeting (structure_of (record { sigma = sigma.now; root = root })) marks.old darts.old.items place }
    requires sized { AreSized (structure_of (record { sigma = sigma.now; root = root })) darts.old.items sizes.old.items }
    ensures meeting { OnOk result (IsMeeting (structure_of (record { sigma = sigma.now; root = root })) marks.new darts.new.items (place + 1)) }
    ensures sized { OnOk result (AreSized (structure_of (record { sigma = sigma.now; root = root })) darts.new.items sizes.new.items) }
{
    let other = twin_of(darts[place]);
    if marks[other as usize] {
        return Ok(());
    }
    append_sized(sigma, root, other, marks, darts, sizes)
}

/// Appends the darts of the vertex of `start`, as `append_vertex`, and its size.
fn append_sized(
    sigma: &[u32],
    root: u32,
    start: u32,
    marks: &mut [bool],
    darts: &mut Vec<u32>,
    sizes: &mut Vec<u32>,
) -> Result<(), AllocError>
    requires map { IsRootedMap (record { sigma = sigma.now; root = root }) }
    requires within { start < length sigma.now }
    requires size { length marks.old ≡ length sigma.now }
    requires unmarked { slice_get marks.old start ≡ Some false }
    requires kept { IsKept (structure_of (record { sigma = sigma.now; root = root })) marks.old darts.old.items }
    requires sized { AreSized (structure_of (record { sigma = sigma.now; root = root })) darts.old.items sizes.old.items }
    ensures appended { OnOk result (AppendsVertex (structure_of (record { sigma = sigma.now; root = root })) start darts.old.items darts.new.items) }
    ensures kept { OnOk result (IsKept (structure_of (record { sigma = sigma.now; root = root })) marks.new darts.new.items) }
    ensures sized { OnOk result (AreSized (structure_of (record { sigma = sigma.now; root = root })) darts.new.items sizes.new.items) }
{
    let before = darts.len();
    append_vertex(sigma, root, start, marks, darts)?;
    sizes.push((darts.len() - before) as u32)?;
    Ok(())
}

/// Appends the darts of the vertex of `start`, from `start` on, and marks them. No dart of that vertex is in the list.
fn append_vertex(
    sigma: &[u32],
    root: u32,
    start: u32,
    marks: &mut [bool],
    darts: &mut Vec<u32>,
) -> Result<(), AllocError>
    requires map { IsRootedMap (record { sigma = sigma.now; root = root }) }
    requires within { start < length sigma.now }
    requires size { length marks.old ≡ length sigma.now }
    requires unmarked { slice_get marks.old start ≡ Some false }
    requires kept { IsKept (structure_of (record { sigma = sigma.now; root = root })) marks.old darts.old.items }
    ensures appended { OnOk result (AppendsVertex (structure_of (record { sigma = sigma.now; root = root })) start darts.old.items darts.new.items) }
    ensures kept { OnOk result (IsKept (structure_of (record { sigma = sigma.now; root = root })) marks.new darts.new.items) }
{
    marks[start as usize] = true;
    darts.push(start)?;
    let mut dart = sigma[start as usize];
    'walk: while dart != start {
        marks[dart as usize] = true;
        darts.push(dart)?;
        dart = sigma[dart as usize];
    }
    Ok(())
}
