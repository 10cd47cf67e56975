//! What closing and opening work in.
ghost use Rattle.std.specs.Prelude.{◌≡◌, ◌≤◌, true, false, IsTrue, IfOk};
ghost use Rattle.pm_pool.specs.Room.{FitsWork};

use crate::pool::Pool;
use pm_limits::MAX_EDGES;
use std::alloc::{AllocError, Global};
use std::marker::Model;

/// A pool and lists to work in. They fit so many edges where the pool has two darts for each edge, none of which is live, and
/// each list is as long as that; what the lists hold is free.
#[derive(Drop)]
pub struct Work {
    pub pool: Pool,
    pub stack: Vec<u32>,
    pub queue: Vec<u32>,
    pub names: Vec<u32>,
    pub marks: Vec<bool>,
}

/// What closing and opening need for so many edges, reserved once. It is whole where its work isn't lent. Contracts see its
/// edges and whether it is whole.
#[derive(Drop)]
pub struct Room {
    edges: u32,
    work: Option<Work>,
}

impl Model for Room {
    ghost use Rattle.std.specs.Prelude.{is_some, IfSome};
    ghost use Rattle.pm_pool.specs.Room.{FitsWork, RoomState};

    ghost Value = { RoomState };

    ghost view = { λ r. record { edges = r.edges; whole = is_some r.work } };

    ghost invariant = { λ r. IfSome r.work (λ work. FitsWork work r.edges) };
}

impl Room {
    /// A whole room for so many edges, at most `MAX_EDGES`.
    ///
    /// # Errors
    ///
    /// `AllocError` where memory runs out.
    pub fn with_room(alloc: Global, edges: u32) -> Result<Room, AllocError>
        requires { edges ≤ MAX_EDGES }
        ensures { IfOk result (λ room. room ≡ record { edges = edges; whole = true }) }
    {
        let work = work_for(alloc, edges)?;
        Ok(Room {
            edges,
            work: Some(work),
        })
    }

    /// For how many edges it is.
    pub fn edges(&self) -> u32
        ensures { result ≡ self.now.edges }
    {
        self.edges
    }

    /// Lends the work of a whole room, which then isn't whole.
    pub fn take_work(&mut self) -> Work
        requires { self.old.whole ≡ true }
        ensures fits { FitsWork result self.old.edges }
        ensures lent { self.new ≡ record { edges = self.old.edges; whole = false } }
    {
        self.work.take().unwrap()
    }

    /// Takes back a work that fits. The room is whole again.
    pub fn give_back(&mut self, work: Work)
        requires lent { self.old.whole ≡ false }
        requires fits { FitsWork work self.old.edges }
        ensures { self.new ≡ record { edges = self.old.edges; whole = true } }
    {
        self.work = Some(work);
    }
}

/// What fits so many edges, at most `MAX_EDGES`.
fn work_for(alloc: Global, edges: u32) -> Result<Work, AllocError>
    requires { edges ≤ MAX_EDGES }
    ensures { IfOk result (λ work. FitsWork work edges) }
{
    let darts = 2 * edges;
    let pool = Pool::with_room(alloc, darts)?;
    let stack = vec![in alloc; 0; darts as usize]?;
    let queue = vec![in alloc; 0; darts as usize]?;
    let names = vec![in alloc; 0; darts as usize]?;
    let marks = vec![in alloc; false; darts as usize]?;
    Ok(Work {
        pool,
        stack,
        queue,
        names,
        marks,
    })
}
