use super::{BoardFault, FrameJobs, Held, JobName, Priority, SettingsFault, WideSettings};
use std::alloc::Global;

// What a worker tells of its job: agents of odd numbers ask one question.
fn tell(board: &mut FrameJobs, worker: u32) -> Option<()> {
    let held = board.running(worker).ok()?;
    match held.job {
        JobName::Logic { .. } => {
            if held.step == 0 {
                board.spread(worker).ok()?;
            } else {
                board.finish(worker).ok()?;
            }
        }
        JobName::Think { agent, .. } => {
            if held.step < agent % 2 {
                board.ask(worker).ok()?;
            } else {
                board.finish(worker).ok()?;
            }
        }
        _ => {
            board.finish(worker).ok()?;
        }
    }
    Some(())
}

fn played(alloc: Global) -> Option<(usize, bool)> {
    let settings = WideSettings::new(3, 2, 1, 2, 2).ok()?;
    let mut board = FrameJobs::new(alloc, settings, 3, 2, 4).ok()?;
    for _step in 0..200 {
        let _shown = board.show();
        let first = board.take(0).ok()?;
        let second = board.take(1).ok()?;
        if second.is_some() {
            tell(&mut board, 1)?;
        }
        if first.is_some() {
            tell(&mut board, 0)?;
        }
    }
    Some((board.events().len(), board.is_done()))
}

#[test]
fn a_game_is_played(rt: HostRuntime) {
    // 3 frames of 5 + 2 * 2 events, 3 thinks of 2 and one question of 4: 9 + 6 + 4 each
    assert!(rt; played(rt.alloc()) == Some((57, true)));
}

// One frame with one think of at most one question, and two workers. Each call answers as it should.
fn answered(alloc: Global) -> Option<[bool; 24]> {
    let settings = WideSettings::new(1, 2, 1, 2, 1).ok()?;
    let mut board = FrameJobs::new(alloc, settings, 1, 1, 1).ok()?;
    let logic = JobName::Logic { frame: 1 };
    let think = JobName::Think { frame: 1, agent: 0 };
    let path = JobName::Path {
        frame: 1,
        agent: 0,
        question: 0,
    };
    let draw = JobName::Draw { frame: 1, band: 0 };
    Some([
        board.settings() == settings && board.queued(Priority::High) == [logic].as_slice(),
        board.running(0) == Err(BoardFault::NotRunning),
        board.take(2) == Err(BoardFault::NoWorker),
        board.start(0, think) == Err(BoardFault::Illegal),
        board.start(0, logic) == Ok(()) && board.take(0) == Err(BoardFault::Busy),
        board.ask(0) == Err(BoardFault::Illegal) && board.finish(0) == Err(BoardFault::Illegal),
        board.spread(0) == Ok(true) && board.spread(0) == Err(BoardFault::NotRunning),
        board.may_take() && board.take_any(1, 7) == taken(think, 0, 1),
        !board.may_take() && board.take(0) == Ok(None),
        board.spread(1) == Err(BoardFault::Illegal) && board.ask(1) == Ok(path),
        board.resume(1, think) == Err(BoardFault::Illegal),
        board.take(0) == taken(path, 0, 0) && board.finish(0) == Ok(path),
        board.ready(Priority::Normal).len() == 1 && board.ready(Priority::High).is_empty(),
        waits_at(&board, think, 1),
        board.resume(0, think) == Ok(1) && board.ask(0) == Err(BoardFault::Illegal),
        board.finish(0) == Ok(think) && board.take(1) == taken(logic, 1, 1),
        board.spread(1) == Err(BoardFault::Illegal) && board.finish(1) == Ok(logic),
        board.show() == Err(BoardFault::Illegal) && !board.is_done(),
        board.take(0) == taken(draw, 0, 0) && board.finish(0) == Ok(draw),
        board.show() == Ok(1) && board.is_done(),
        !board.is_stopped() && board.events().len() == 13,
        stops(&mut board),
        board.take(0) == Err(BoardFault::Stopped) && board.finish(0) == Err(BoardFault::Stopped),
        board.show() == Err(BoardFault::Stopped) && !board.may_take(),
    ])
}

fn taken(job: JobName, step: u32, worker: u32) -> Result<Option<Held>, BoardFault> {
    Ok(Some(Held {
        job,
        step,
        worker: Some(worker),
    }))
}

// The first ready fiber of normal priority holds this job, which no worker runs.
fn waits_at(board: &FrameJobs, job: JobName, step: u32) -> bool {
    let Some(fiber) = board.ready(Priority::Normal).first() else {
        return false;
    };
    board.held_by(*fiber)
        == Some(Held {
            job,
            step,
            worker: None,
        })
}

fn stops(board: &mut FrameJobs) -> bool {
    board.stop();
    board.stop();
    board.is_stopped() && !board.is_done() && board.events().len() == 14
}

#[test]
fn each_call_answers(rt: HostRuntime) {
    assert!(rt; answered(rt.alloc()) == Some([true; 24]));
}

fn widest(alloc: Global) -> Option<bool> {
    let settings = WideSettings::new(1, 64, 64, 64, 16).ok()?;
    let mut board = FrameJobs::new(alloc, settings, 70, 1, 0).ok()?;
    board.start(63, JobName::Logic { frame: 1 }).ok()?;
    board.spread(63).ok()?;
    // The Logic waits on one of the large fibers.
    for worker in 0..63 {
        board.take(worker).ok()??;
    }
    Some(
        WideSettings::new(1, 65, 1, 2, 1) == Err(SettingsFault::Workers)
            && WideSettings::new(1, 1, 65, 2, 1) == Err(SettingsFault::Fibers)
            && WideSettings::new(1, 1, 1, 65, 1) == Err(SettingsFault::Fibers)
            && board.take(63) == Ok(None),
    )
}

#[test]
fn sixty_four_workers_run_at_once(rt: HostRuntime) {
    assert!(rt; widest(rt.alloc()) == Some(true));
}

fn drawn(alloc: Global, seed: u64) -> Option<(usize, bool)> {
    let settings = WideSettings::new(3, 2, 1, 2, 2).ok()?;
    let mut board = FrameJobs::new(alloc, settings, 3, 2, 4).ok()?;
    let mut number = seed;
    for _step in 0..400 {
        number = number
            .wrapping_mul(6_364_136_223_846_793_005)
            .wrapping_add(1_442_695_040_888_963_407);
        let worker = (number >> 40) as u32 % 2;
        let _shown = board.show();
        if board.running(worker).is_ok() {
            tell(&mut board, worker)?;
        } else {
            let _taken = board.take_any(worker, number >> 33).ok()?;
        }
    }
    Some((board.events().len(), board.is_done()))
}

#[test]
fn any_order_plays_to_the_end(rt: HostRuntime) {
    // a Hold and a Resume more for each frame that waited for its slot
    for seed in 0..20 {
        let Some((events, done)) = drawn(rt.alloc(), seed) else {
            assert!(rt; false);
            return;
        };
        assert!(rt; done);
        assert!(rt; events >= 57 && events <= 59);
    }
}
