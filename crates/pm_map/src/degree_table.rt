//! How many vertices have which degree.
ghost use Rattle.std.specs.Prelude.{◌≡◌, ◌+◌, ◌<◌, ◌^◌, length, EachIndex, slice_index, IfOk};
ghost use Rattle.pm_map.specs.steps.Tables.{AreDivided, AreTallied, IsTableOf};
ghost use Rattle.pm_map.specs.DegreeTable.{AreVertexCounts};
ghost use Rattle.pm_map.specs.Rotation.{structure_of};

use crate::rooted_map::RootedMap;
use std::alloc::{AllocError, Global};

impl RootedMap {
    /// How many vertices have which degree: entry `d` is the number of vertices of degree `d`, for `d` from 0 to
    /// `greatest`, which is below 2^32 - 1. Vertices of a greater degree aren't counted. The map without darts has one
    /// vertex, of degree 0. It takes time linear in the darts and in `greatest`.
    ///
    /// # Errors
    ///
    /// `AllocError` where memory runs out.
    pub fn vertices_by_degree(&self, alloc: Global, greatest: u32) -> Result<Vec<u32>, AllocError>
        requires { greatest + 1 < 2 ^ 32 }
        ensures { IfOk result (λ table. AreVertexCounts (structure_of self.now) greatest table.items) }
    {
        let mut degrees = vec![in alloc; 0; self.sigma().len()]?;
        self.vertex_degrees(&mut degrees);
        let mut table = vec![in alloc; 0u32; greatest as usize + 1]?;
        write_table(&degrees, &mut table);
        Ok(table)
    }
}

/// Writes how many vertices have which degree, where the degrees of the vertices of the darts are these.
fn write_table(degrees: &[u32], table: &mut [u32])
    requires few { length degrees.now < 2 ^ 32 }
    requires some { 0 < length table.old }
    requires places { length table.old < 2 ^ 32 }
    requires zeros { EachIndex table.old (λ d. slice_index table.old d ≡ 0) }
    ensures table { IsTableOf degrees.now table.new }
    ensures length { length table.new ≡ length table.old }
{
    tally(degrees, table);
    divide(table);
    if degrees.is_empty() {
        table[0] = 1;
    }
}

/// Counts the entries: entry `d` of the table becomes the number of entries that are `d`.
fn tally(entries: &[u32], table: &mut [u32])
    requires few { length entries.now < 2 ^ 32 }
    requires zeros { EachIndex table.old (λ d. slice_index table.old d ≡ 0) }
    ensures tallied { AreTallied entries.now table.new }
    ensures length { length table.new ≡ length table.old }
{
    'entries: for entry in entries {
        let entry = *entry as usize;
        if entry < table.len() {
            table[entry] += 1;
        }
    }
}

/// Divides each entry from 1 on by its place.
fn divide(table: &mut [u32])
    requires { length table.old < 2 ^ 32 }
    ensures { AreDivided table.old table.new (length table.old) }
{
    'places: for place in 1..table.len() {
        table[place] /= place as u32;
    }
}
