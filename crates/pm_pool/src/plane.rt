//! Plane maps in a pool.
ghost use Rattle.std.specs.Prelude.{◌≡◌, ◌≢◌, ◌+◌, ◌<◌, slice_index};
ghost use Rattle.pm_perm.specs.Cycles.{IsInCycle};
ghost use Rattle.pm_pool.specs.Plane.{IsEdgeCut, IsEdgeGrown, IsEdgeJoined, IsPlaneRegion, IsStarted, IsStemAdded, IsStemDropped, face_rule};
ghost use Rattle.pm_pool.specs.Region.{IsCleared, IsLive, live_darts, room};

use crate::pool::{Dart, Pool};
use std::marker::Model;

/// A connected plane map in a pool of its own. It has a dart, some of its darts may be stems, and it is plane after every call:
/// the live darts are connected, and vertices and faces are as many as edges and two (Euler). No call takes memory, and each
/// keeps the room. Contracts see it as the region of its pool.
#[derive(Drop)]
pub struct PlaneDarts {
    pool: Pool,
}

impl Model for PlaneDarts {
    ghost use Rattle.pm_pool.specs.Plane.{IsPlaneRegion};
    ghost use Rattle.pm_pool.specs.Region.{Region};

    ghost Value = { Region };

    ghost view = { λ p. p.pool };

    ghost invariant = { λ p. IsPlaneRegion p.pool };
}

impl PlaneDarts {
    /// One vertex with one stem, in a pool with room for a dart, none of which is live.
    pub fn start(pool: Pool) -> (PlaneDarts, Dart)
        requires none_live { live_darts pool ≡ 0 }
        requires room { 0 < room pool }
        ensures { IsStarted pool result.0 result.1 }
    {
        let mut pool = pool;
        let d = pool.take();
        (PlaneDarts { pool }, d)
    }

    /// How many darts aren't live.
    pub fn spare(&self) -> u32
        ensures spare { result + live_darts self.now ≡ room self.now }
        ensures plane { IsPlaneRegion self.now }
    {
        self.pool.spare()
    }

    /// The dart after a live dart around its vertex. It is live.
    pub fn next(&self, d: Dart) -> Dart
        requires { IsLive self.now d }
        ensures value { result ≡ slice_index self.now.next d }
        ensures live { IsLive self.now result }
    {
        self.pool.next(d)
    }

    /// The dart before a live dart around its vertex. It is live.
    pub fn prev(&self, d: Dart) -> Dart
        requires { IsLive self.now d }
        ensures value { result ≡ slice_index self.now.prev d }
        ensures live { IsLive self.now result }
    {
        self.pool.prev(d)
    }

    /// The twin of a live dart. It is live.
    pub fn twin(&self, d: Dart) -> Dart
        requires { IsLive self.now d }
        ensures value { result ≡ slice_index self.now.twin d }
        ensures live { IsLive self.now result }
    {
        self.pool.twin(d)
    }

    /// A new stem directly after a live dart. There must be a spare dart.
    pub fn add_stem(&mut self, at: Dart) -> Dart
        requires live { IsLive self.old at }
        requires spare { live_darts self.old < room self.old }
        ensures { IsStemAdded self.old self.new at result }
    {
        let d = self.pool.take();
        self.pool.insert_after(at, d);
        d
    }

    /// Gives back a live stem whose vertex has another dart.
    pub fn drop_stem(&mut self, d: Dart)
        requires live { IsLive self.old d }
        requires stem { slice_index self.old.twin d ≡ d }
        requires not_alone { slice_index self.old.next d ≢ d }
        ensures { IsStemDropped self.old self.new d }
    {
        self.pool.remove(d);
        self.pool.give(d);
    }

    /// A new vertex with one dart, the twin of a live stem. There must be a spare dart.
    pub fn grow_edge(&mut self, x: Dart) -> Dart
        requires live { IsLive self.old x }
        requires stem { slice_index self.old.twin x ≡ x }
        requires spare { live_darts self.old < room self.old }
        ensures { IsEdgeGrown self.old self.new x result }
    {
        let y = self.pool.take();
        self.pool.pair(x, y);
        y
    }

    /// Makes two different live stems of one face twins. The face falls into two.
    pub fn join(&mut self, x: Dart, y: Dart)
        requires first { IsLive self.old x }
        requires second { IsLive self.old y }
        requires differ { x ≢ y }
        requires first_stem { slice_index self.old.twin x ≡ x }
        requires second_stem { slice_index self.old.twin y ≡ y }
        requires one_face { IsInCycle (face_rule self.old) x y }
        ensures { IsEdgeJoined self.old self.new x y }
    {
        self.pool.pair(x, y);
    }

    /// Makes a live dart and its twin, which are in two faces, two stems. The two faces become one.
    pub fn cut(&mut self, x: Dart)
        requires live { IsLive self.old x }
        requires two_faces { IsInCycle (face_rule self.old) x (slice_index self.old.twin x) → ⊥ }
        ensures { IsEdgeCut self.old self.new x (slice_index self.old.twin x) }
    {
        self.pool.part(x);
    }

    /// The pool with no live dart and its whole room.
    pub fn end(self) -> Pool
        ensures { IsCleared result (room self) }
    {
        let mut pool = self.pool;
        pool.clear();
        pool
    }
}
