use counters::{CounterFault, CounterKey, Counters, Lowered, Waits};
use job_queues::Fiber;
use std::alloc::Global;

const THINKS: CounterKey = CounterKey::Thinks { frame: 1 };

// What is left after a counter is lowered, and the fiber that alone waited where that is nothing.
fn lowered(counters: &mut Counters, key: CounterKey) -> Result<(u32, Option<Fiber>), CounterFault> {
    match counters.lower(key)? {
        Lowered::Left(left) => Ok((left, None)),
        Lowered::Zero(fibers) => match fibers.as_slice() {
            [fiber] => Ok((0, Some(*fiber))),
            _ => Ok((0, None)),
        },
    }
}

// Whether each step of a counter that starts at 2, and for which one fiber waits, is answered as it should be.
fn steps_to_zero(alloc: Global) -> [bool; 11] {
    let mut counters = Counters::new(alloc);
    [
        counters.start(THINKS, 2) == Ok(()),
        counters.start(THINKS, 2) == Err(CounterFault::Busy),
        lowered(&mut counters, THINKS) == Ok((1, None)),
        counters.wait(THINKS, Fiber(0)) == Ok(Waits::Kept),
        counters.end(THINKS) == Err(CounterFault::Busy),
        lowered(&mut counters, THINKS) == Ok((0, Some(Fiber(0)))),
        counters.left(THINKS) == Some(0),
        lowered(&mut counters, THINKS) == Err(CounterFault::NotThere),
        counters.end(THINKS) == Ok(()),
        counters.left(THINKS).is_none(),
        counters.wait(THINKS, Fiber(0)) == Err(CounterFault::NotThere),
    ]
}

#[test]
fn a_counter_gives_out_its_waiters_at_zero(rt: HostRuntime) {
    assert!(rt; steps_to_zero(rt.alloc()) == [true; 11]);
}

// Whether each step of a counter that starts at 0, and of one that is cancelled, is answered as it should be.
fn steps_with_nobody_waiting(alloc: Global) -> [bool; 6] {
    let (thinks, draws) = (
        CounterKey::Thinks { frame: 2 },
        CounterKey::Draws { frame: 1 },
    );
    let mut counters = Counters::new(alloc);
    [
        counters.start(thinks, 0) == Ok(()),
        counters.wait(thinks, Fiber(0)) == Ok(Waits::AtZero),
        counters.start(draws, 2) == Ok(()),
        counters.cancel(draws) == Ok(()),
        counters.left(draws).is_none(),
        counters.left(thinks) == Some(0),
    ]
}

#[test]
fn nobody_waits_at_zero_and_a_cancelled_counter_is_gone(rt: HostRuntime) {
    assert!(rt; steps_with_nobody_waiting(rt.alloc()) == [true; 6]);
}
