//! The store.
ghost use Rattle.std.specs.Prelude.{◌≡◌, ◌≢◌, ◌+◌, ◌<◌, ◌^◌, false, length, slice_index, IfOk};
ghost use Rattle.pm_pool.specs.Region.{IsAlone, IsCleared, IsInserted, IsLive, IsPaired, IsRegion, IsRemoved, IsTaken, live_darts, room, with_live};

use crate::links::{numbers_below, relink, write_numbers};
use std::alloc::{AllocError, Global};
use std::marker::Model;

/// A dart of a pool, a number below the pool's room.
pub type Dart = u32;

/// A store of darts. Its room is how many there are; some are live. A live dart has a next one and a previous one around its
/// vertex, and a twin; a dart that is its own twin is a stem. No call but [`Pool::with_room`] takes memory, and each keeps the
/// room. Contracts see a pool as its region: which darts are live, and the three links of each.
#[derive(Drop)]
pub struct Pool {
    live: Vec<bool>,
    next: Vec<Dart>,
    prev: Vec<Dart>,
    twin: Vec<Dart>,
    // Its first `spare` entries are the darts that aren't live.
    free: Vec<Dart>,
    spare: u32,
}

impl Model for Pool {
    ghost use Rattle.pm_pool.specs.Region.{Region};

    ghost Value = { Region };

    ghost use Rattle.pm_pool.specs.View.{region_of};
    ghost use Rattle.pm_pool.specs.steps.Free.{IsStore};

    ghost view = { region_of };

    ghost invariant = { λ p. IsStore (region_of p) p.free.items p.spare };
}

impl Pool {
    /// A pool with room for so many darts, fewer than 2^32, none of which is live.
    ///
    /// # Errors
    ///
    /// `AllocError` where memory runs out.
    pub fn with_room(alloc: Global, darts: u32) -> Result<Pool, AllocError>
        ensures { IfOk result (λ pool. IsCleared pool darts) }
    {
        let live = vec![in alloc; false; darts as usize]?;
        let next = numbers_below(alloc, darts)?;
        let prev = numbers_below(alloc, darts)?;
        let twin = numbers_below(alloc, darts)?;
        let free = numbers_below(alloc, darts)?;
        Ok(Pool {
            live,
            next,
            prev,
            twin,
            free,
            spare: darts,
        })
    }

    /// How many darts there are, live or not.
    pub fn room(&self) -> u32
        ensures room { result ≡ room self.now }
        ensures valid { IsRegion self.now }
    {
        self.live.len() as u32
    }

    /// How many darts aren't live.
    pub fn spare(&self) -> u32
        ensures { result + live_darts self.now ≡ room self.now }
    {
        self.spare
    }

    /// A dart that wasn't live before. It is alone. There must be a spare one.
    pub fn take(&mut self) -> Dart
        requires { live_darts self.old < room self.old }
        ensures { IsTaken self.old self.new result }
    {
        self.spare -= 1;
        let d = self.free[self.spare as usize];
        self.live[d as usize] = true;
        d
    }

    /// Takes back a live dart that is alone. It is live no more.
    pub fn give(&mut self, d: Dart)
        requires live { IsLive self.old d }
        requires alone { IsAlone self.old d }
        ensures { self.new ≡ with_live self.old d false }
    {
        self.live[d as usize] = false;
        self.free[self.spare as usize] = d;
        self.spare += 1;
    }

    /// Puts a live dart that is alone directly after another live dart, around the vertex of that one.
    pub fn insert_after(&mut self, at: Dart, d: Dart)
        requires at { IsLive self.old at }
        requires live { IsLive self.old d }
        requires differ { at ≢ d }
        requires alone { IsAlone self.old d }
        ensures { IsInserted self.old self.new at d }
    {
        relink(&mut self.next, &mut self.prev, at, d);
    }

    /// Closes a live stem out of its vertex, so that it is alone.
    pub fn remove(&mut self, d: Dart)
        requires live { IsLive self.old d }
        requires stem { slice_index self.old.twin d ≡ d }
        ensures { IsRemoved self.old self.new d }
    {
        let before = self.prev[d as usize];
        relink(&mut self.next, &mut self.prev, before, d);
    }

    /// Makes two different live stems twins.
    pub(crate) fn pair(&mut self, x: Dart, y: Dart)
        requires first { IsLive self.old x }
        requires second { IsLive self.old y }
        requires differ { x ≢ y }
        requires first_stem { slice_index self.old.twin x ≡ x }
        requires second_stem { slice_index self.old.twin y ≡ y }
        ensures valid { IsRegion self.new }
        ensures paired { IsPaired self.old self.new x y }
    {
        self.twin[x as usize] = y;
        self.twin[y as usize] = x;
    }

    /// Makes a live dart that is no stem, and its twin, two stems.
    pub(crate) fn part(&mut self, x: Dart)
        requires live { IsLive self.old x }
        requires no_stem { slice_index self.old.twin x ≢ x }
        ensures valid { IsRegion self.new }
        ensures parted { IsPaired self.new self.old x (slice_index self.old.twin x) }
    {
        let y = self.twin[x as usize];
        self.twin[x as usize] = x;
        self.twin[y as usize] = y;
    }

    /// The dart after a live dart around its vertex. It is live.
    pub fn next(&self, d: Dart) -> Dart
        requires { IsLive self.now d }
        ensures value { result ≡ slice_index self.now.next d }
        ensures live { IsLive self.now result }
    {
        self.next[d as usize]
    }

    /// The dart before a live dart around its vertex. It is live.
    pub fn prev(&self, d: Dart) -> Dart
        requires { IsLive self.now d }
        ensures value { result ≡ slice_index self.now.prev d }
        ensures live { IsLive self.now result }
    {
        self.prev[d as usize]
    }

    /// The twin of a live dart. It is live.
    pub fn twin(&self, d: Dart) -> Dart
        requires { IsLive self.now d }
        ensures value { result ≡ slice_index self.now.twin d }
        ensures live { IsLive self.now result }
    {
        self.twin[d as usize]
    }

    /// Takes all darts back: none is live.
    pub fn clear(&mut self)
        ensures { IsCleared self.new (room self.old) }
    {
        self.live.fill(false);
        write_numbers(&mut self.next);
        write_numbers(&mut self.prev);
        write_numbers(&mut self.twin);
        write_numbers(&mut self.free);
        self.spare = self.live.len() as u32;
    }
}
