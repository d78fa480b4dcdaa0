use job_core::names::JobName;
use job_queues::{Fiber, FiberPool, NoFiber, NotTaken, Pick, Priority, QueueFault, Queues, Size};
use std::alloc::Global;

const LOGIC: JobName = JobName::Logic { frame: 1 };

const THINK: JobName = JobName::Think { frame: 1, agent: 0 };

const DRAW: JobName = JobName::Draw { frame: 1, band: 0 };

// Whether a Think is seen first in queues of a Draw and a Think, and then picked before the Draw, and nothing after them.
fn picks_of_draw_and_think(alloc: Global) -> Option<[bool; 4]> {
    let mut queues = Queues::new(alloc, 3).ok()?;
    queues.put_all(&[DRAW, THINK]).ok()?;
    Some([
        queues.peek(1, 1) == Some(Pick::New(THINK)),
        queues.pick(1, 1) == Some(Pick::New(THINK)),
        queues.pick(1, 0) == Some(Pick::New(DRAW)),
        queues.pick(1, 0).is_none(),
    ])
}

#[test]
fn the_higher_priority_goes_first(rt: HostRuntime) {
    assert!(rt; picks_of_draw_and_think(rt.alloc()) == Some([true; 4]));
}

// Whether the jobs of a frame are picked in the order of their numbers, behind the Logic that follows it, and nothing after them.
fn picks_of_a_frame(alloc: Global) -> Option<[bool; 6]> {
    let mut queues = Queues::new(alloc, 3).ok()?;
    queues.put_followers(1, 2, 2).ok()?;
    queues.put_thinks(1, 2).ok()?;
    Some([
        queues.pick(1, 1) == Some(Pick::New(JobName::Logic { frame: 2 })),
        queues.pick(1, 1) == Some(Pick::New(THINK)),
        queues.pick(1, 1) == Some(Pick::New(JobName::Think { frame: 1, agent: 1 })),
        queues.pick(1, 1) == Some(Pick::New(DRAW)),
        queues.pick(1, 1) == Some(Pick::New(JobName::Draw { frame: 1, band: 1 })),
        queues.pick(1, 1).is_none(),
    ])
}

#[test]
fn jobs_of_a_frame_go_by_number(rt: HostRuntime) {
    assert!(rt; picks_of_a_frame(rt.alloc()) == Some([true; 6]));
}

// Whether nothing is picked with a small fiber free where a Think is new, and a fiber once it is ready.
fn picks_with_a_small_fiber_free(alloc: Global) -> Option<[bool; 2]> {
    let mut queues = Queues::new(alloc, 3).ok()?;
    queues.put_new(THINK).ok()?;
    let before = queues.pick(1, 0);
    queues.put_ready(Priority::Normal, Fiber(0));
    let after = queues.pick(1, 0);
    Some([before.is_none(), after == Some(Pick::Ready(Fiber(0)))])
}

#[test]
fn a_small_fiber_starts_no_think_but_a_ready_one_goes_on(rt: HostRuntime) {
    assert!(rt; picks_with_a_small_fiber_free(rt.alloc()) == Some([true; 2]));
}

// Whether a new job and a ready fiber are refused by empty queues, and taken out of queues of both, which are empty then.
fn takings(alloc: Global) -> Option<[bool; 5]> {
    let mut queues = Queues::new(alloc, 3).ok()?;
    let job = queues.take_out(LOGIC);
    let fiber = queues.take_ready(Fiber(0));
    queues.put_new(LOGIC).ok()?;
    queues.put_ready(Priority::High, Fiber(0));
    Some([
        job == Err(QueueFault::NotThere),
        fiber == Err(QueueFault::NotThere),
        queues.take_out(LOGIC) == Ok(()),
        queues.take_ready(Fiber(0)) == Ok(()),
        queues.peek(3, 3).is_none(),
    ])
}

#[test]
fn entries_are_taken_out_by_name(rt: HostRuntime) {
    assert!(rt; takings(rt.alloc()) == Some([true; 5]));
}

#[test]
fn fibers_of_a_size_are_taken_from_the_lowest(rt: HostRuntime) {
    let mut pool = FiberPool::new(1, 2);
    assert!(rt; pool.free(Size::Small) == 1);
    assert!(rt; pool.free(Size::Large) == 2);
    assert!(rt; pool.take(Size::Small) == Ok(Fiber(0)));
    assert!(rt; pool.take(Size::Small) == Err(NoFiber));
    assert!(rt; pool.take(Size::Large) == Ok(Fiber(1)));
    assert!(rt; pool.take(Size::Large) == Ok(Fiber(2)));
    assert!(rt; pool.take(Size::Large) == Err(NoFiber));
    assert!(rt; pool.give(Fiber(1)) == Ok(()));
    assert!(rt; pool.take(Size::Large) == Ok(Fiber(1)));
    assert!(rt; pool.give(Fiber(0)) == Ok(()));
    assert!(rt; pool.give(Fiber(0)) == Err(NotTaken));
}
