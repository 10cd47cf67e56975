//! A pool and a room at real values.
use super::{PlaneDarts, Pool, Room};
use std::test::Fail;

#[test]
fn has_its_room(rt: HostRuntime) -> Result<(), Fail> {
    let pool = Pool::with_room(rt.alloc(), 8)?;
    assert_eq!(rt; pool.spare(), 8);
    Ok(())
}

#[test]
fn takes_links_and_gives_back(rt: HostRuntime) -> Result<(), Fail> {
    let mut pool = Pool::with_room(rt.alloc(), 8)?;
    let a = pool.take();
    assert_eq!(rt; pool.spare(), 7);
    let b = pool.take();
    assert_eq!(rt; pool.spare(), 6);
    pool.insert_after(a, b);
    assert_eq!(rt; pool.next(a), b);
    assert_eq!(rt; pool.next(b), a);
    assert_eq!(rt; pool.prev(a), b);
    assert_eq!(rt; pool.twin(b), b);
    pool.remove(b);
    assert_eq!(rt; pool.next(a), a);
    pool.give(b);
    assert_eq!(rt; pool.spare(), 7);
    pool.clear();
    assert_eq!(rt; pool.spare(), 8);
    Ok(())
}

#[test]
fn lends_its_work(rt: HostRuntime) -> Result<(), Fail> {
    let mut room = Room::with_room(rt.alloc(), 4)?;
    assert_eq!(rt; room.edges(), 4);
    let work = room.take_work();
    assert_eq!(rt; work.pool.spare(), 8);
    assert_eq!(rt; work.stack.len(), 8);
    room.give_back(work);
    assert_eq!(rt; room.edges(), 4);
    Ok(())
}

#[test]
fn starts_with_a_stem(rt: HostRuntime) -> Result<(), Fail> {
    let pool = Pool::with_room(rt.alloc(), 3)?;
    assert_eq!(rt; pool.spare(), 3);
    let (plane, d) = PlaneDarts::start(pool);
    assert_eq!(rt; plane.spare(), 2);
    assert_eq!(rt; plane.next(d), d);
    assert_eq!(rt; plane.twin(d), d);
    let pool = plane.end();
    assert_eq!(rt; pool.spare(), 3);
    Ok(())
}

#[test]
fn one_room_serves_in_turn(rt: HostRuntime) -> Result<(), Fail> {
    let mut room = Room::with_room(rt.alloc(), 4)?;
    let work = room.take_work();
    room.give_back(work);
    let work = room.take_work();
    assert_eq!(rt; work.pool.spare(), 8);
    assert_eq!(rt; work.queue.len(), 8);
    assert_eq!(rt; work.names.len(), 8);
    assert_eq!(rt; work.marks.len(), 8);
    room.give_back(work);
    assert_eq!(rt; room.edges(), 4);
    Ok(())
}

#[test]
fn adds_and_drops_a_stem(rt: HostRuntime) -> Result<(), Fail> {
    let pool = Pool::with_room(rt.alloc(), 2)?;
    assert_eq!(rt; pool.spare(), 2);
    let (mut plane, a) = PlaneDarts::start(pool);
    assert_eq!(rt; plane.spare(), 1);
    let b = plane.add_stem(a);
    assert_eq!(rt; plane.spare(), 0);
    assert_eq!(rt; plane.next(a), b);
    assert_eq!(rt; plane.next(b), a);
    assert_eq!(rt; plane.twin(b), b);
    plane.drop_stem(b);
    assert_eq!(rt; plane.spare(), 1);
    assert_eq!(rt; plane.next(a), a);
    Ok(())
}

#[test]
fn grows_an_edge(rt: HostRuntime) -> Result<(), Fail> {
    let pool = Pool::with_room(rt.alloc(), 2)?;
    assert_eq!(rt; pool.spare(), 2);
    let (mut plane, a) = PlaneDarts::start(pool);
    assert_eq!(rt; plane.spare(), 1);
    let b = plane.grow_edge(a);
    assert_eq!(rt; plane.spare(), 0);
    assert_eq!(rt; plane.twin(a), b);
    assert_eq!(rt; plane.twin(b), a);
    assert_eq!(rt; plane.next(a), a);
    assert_eq!(rt; plane.next(b), b);
    Ok(())
}

#[test]
fn joins_and_cuts_a_loop(rt: HostRuntime) -> Result<(), Fail> {
    let pool = Pool::with_room(rt.alloc(), 2)?;
    assert_eq!(rt; pool.spare(), 2);
    let (mut plane, a) = PlaneDarts::start(pool);
    assert_eq!(rt; plane.spare(), 1);
    let b = plane.add_stem(a);
    assert_eq!(rt; plane.twin(a), a);
    assert_eq!(rt; plane.next(a), b);
    plane.join(a, b);
    assert_eq!(rt; plane.twin(a), b);
    assert_eq!(rt; plane.twin(b), a);
    assert_eq!(rt; plane.next(a), b);
    plane.cut(a);
    assert_eq!(rt; plane.twin(a), a);
    assert_eq!(rt; plane.twin(b), b);
    let pool = plane.end();
    assert_eq!(rt; pool.spare(), 2);
    Ok(())
}
