ghost use Rattle.std.specs.Prelude.{◌≡◌, ◌≢◌, ℕ, suc, ◌+◌, ◌*◌, ◌%◌, ◌<◌, ◌≤◌, ◌^◌, [], ◌∷◌, ◌++◌, length, IfOk};
ghost use Rattle.pm_remy.specs.steps.Linked.{IsHeld};
ghost use Rattle.pm_remy.specs.Tree.{Tree};

use pm_limits::MAX_EDGES;
use std::alloc::{AllocError, Global};

/// The new number of the node. A leaf keeps its own; a fork is queued, and numbered by the queue.
fn numbered(node: u32, forks: &mut Vec<u32>) -> Result<u32, AllocError>
    requires few { 2 * length forks.old.items + 1 < 2 ^ 32 }
    ensures leaf { node % 2 ≡ 0 → IfOk result (λ v. (v ≡ node) × (forks.new.items ≡ forks.old.items)) }
    ensures fork { node % 2 ≢ 0 → IfOk result (λ v. (v ≡ 2 * length forks.old.items + 1) × (forks.new.items ≡ forks.old.items ++ node ∷ [])) }
{
    if node % 2 == 0 {
        return Ok(node);
    }
    let number = 2 * forks.len() as u32 + 1;
    forks.push(node)?;
    Ok(number)
}

/// The tree that is linked, with its forks numbered level by level, each level from left to right. So a walk in preorder
/// goes through each level in order.
pub(crate) fn by_level(alloc: Global, links: &[u32]) -> Result<Vec<u32>, AllocError>
    requires few { length links.now ≤ 2 * MAX_EDGES + 1 }
    requires tree { (t : Tree) × IsHeld links.now t }
    ensures few { IfOk result (λ v. length v.items ≤ 2 * MAX_EDGES + 1) }
    ensures tree { (t : Tree) → IsHeld links.now t → IfOk result (λ v. IsHeld v.items t) }
{
    let mut forks = Vec::with_capacity(alloc, links.len() / 2)?;
    let mut leveled = Vec::with_capacity(alloc, links.len())?;
    let root = numbered(links[0], &mut forks)?;
    leveled.push(root)?;
    let mut met = 0;
    'forks: while met < forks.len() {
        let fork = forks[met] as usize;
        let left = numbered(links[fork], &mut forks)?;
        leveled.push(left)?;
        let right = numbered(links[fork + 1], &mut forks)?;
        leveled.push(right)?;
        met += 1;
    }
    Ok(leveled)
}
