// What no clause says: a call of the board that is refused for memory answers, once it is called again, as it should.
//
// No growth is refused where this is run as it is; `scripts/runs/refused_growths.py` refuses each in turn.
use super::sessions::session_of;
use bumpalo::Bump;
use frame_params::{BoardStep, LogicStep, Parked, Step, Task, ThinkStep};
use game_session::Session;
use job_board::{Board, BoardFault, Done, Refused, Settings};
use replay_log::replay;
use std::alloc::Global;

// Two that wait, with one slot, so a Logic holds.
const LEVEL: &str =
    "{\"map\":[\"A..0\",\"B..1\"],\"agents\":[\"a\",\"b\"],\"trees\":{\"a\":[\"seq*\",[\"wait\",1],[\"move\",\"0\"]],\"b\":[\"seq\",[\"wait\",1],[\"move\",\"1\"]]}}";

const TEXT: &[u8] =
    b"frame 1\nA..0\nB..1\nA R 0,0 -\nB R 0,1 -\nframe 2\n.A.0\n.B.1\nA R 1,0 -\nB R 1,1 -\n";

// None of a refusal that was not for memory, or that did not leave the events as they were.
fn unchanged(board: &Board, events: usize, fault: BoardFault) -> Option<()> {
    (fault == BoardFault::OutOfMemory && board.events().len() == events).then_some(())
}

fn new_board<'t>(alloc: Global, session: &'t Session, settings: Settings) -> Option<Board<'t>> {
    match Board::new(alloc, session, settings) {
        Ok(board) => Some(board),
        Err(_) => Board::new(alloc, session, settings).ok(),
    }
}

fn take<'t>(board: &mut Board<'t>) -> Option<Option<Task<'t>>> {
    let events = board.events().len();
    match board.take(0) {
        Ok(task) => Some(task),
        Err(fault) => {
            unchanged(board, events, fault)?;
            board.take(0).ok()
        }
    }
}

// The work of a task, in the worker's arena or in Global.
fn work<'t>(alloc: Global, arena: &Option<Bump>, task: &Task<'t>) -> Option<Step<'t>> {
    match arena {
        Some(arena) => task.work_in(alloc, arena).ok(),
        None => task.work(alloc).ok(),
    }
}

fn worked<'t>(alloc: Global, arena: &Option<Bump>, task: &Task<'t>) -> Option<BoardStep<'t>> {
    let step = match work(alloc, arena, task) {
        Some(step) => step,
        None => work(alloc, arena, task)?,
    };
    Some(step.deliver().0)
}

fn finish<'t>(board: &mut Board<'t>, done: Done<'t>) -> Option<()> {
    let events = board.events().len();
    match board.finish(0, done) {
        Ok(()) => Some(()),
        Err(Refused { fault, value }) => {
            unchanged(board, events, fault)?;
            board.finish(0, value).ok()
        }
    }
}

fn ask<'t>(board: &mut Board<'t>, parked: Parked<'t>) -> Option<()> {
    let events = board.events().len();
    match board.ask(0, parked) {
        Ok(()) => Some(()),
        Err(Refused { fault, value }) => {
            unchanged(board, events, fault)?;
            board.ask(0, value).ok()
        }
    }
}

fn hold(board: &mut Board) -> Option<()> {
    let events = board.events().len();
    match board.hold(0) {
        Ok(()) => Some(()),
        Err(fault) => {
            unchanged(board, events, fault)?;
            board.hold(0).ok()
        }
    }
}

// A Logic's beginning: it spreads, or holds where that is illegal.
fn begin(board: &mut Board) -> Option<()> {
    let events = board.events().len();
    match board.spread(0) {
        Ok(()) => Some(()),
        Err(BoardFault::Illegal) => hold(board),
        Err(fault) => {
            unchanged(board, events, fault)?;
            board.spread(0).ok()
        }
    }
}

fn hand_in<'t>(board: &mut Board<'t>, step: BoardStep<'t>) -> Option<()> {
    match step {
        BoardStep::Logic(LogicStep::Begins) => begin(board),
        BoardStep::Logic(LogicStep::Turned(turn)) => finish(board, Done::Turned(turn)),
        BoardStep::Think(ThinkStep::Ended(thought)) => finish(board, Done::Thought(thought)),
        BoardStep::Think(ThinkStep::Asks(parked)) => ask(board, parked),
        BoardStep::Path(way) => finish(board, Done::Way(way)),
        BoardStep::Draw(mark) => finish(board, Done::Drawn(mark)),
    }
}

fn emit(board: &mut Board) -> Option<()> {
    let events = board.events().len();
    match board.emit() {
        Ok(_) => Some(()),
        Err(fault) => {
            unchanged(board, events, fault)?;
            board.emit().ok()?;
            Some(())
        }
    }
}

// A worker's task and all that comes of it, or the next frame is shown where there is none.
fn turn(alloc: Global, board: &mut Board, arena: &mut Option<Bump>) -> Option<()> {
    let Some(task) = take(board)? else {
        return emit(board);
    };
    let step = worked(alloc, arena, &task)?;
    hand_in(board, step)?;
    match arena {
        Some(arena) => arena.reset().ok(),
        None => Some(()),
    }
}

// Whether one worker plays the game to its end.
fn plays(alloc: Global, board: &mut Board, arena: &mut Option<Bump>) -> Option<()> {
    for _turn in 0..1000 {
        if board.is_done() {
            return Some(());
        }
        turn(alloc, board, arena)?;
    }
    None
}

fn shows(alloc: Global, session: &Session, settings: Settings, board: &Board) -> Option<bool> {
    let frames = replay(alloc, session, settings, board.events()).ok()?;
    Some(frames.text.as_slice() == TEXT)
}

// Whether the events of the game, played to its end, show its frames.
fn plays_and_shows(
    alloc: Global,
    session: &Session,
    settings: Settings,
    board: &mut Board,
    arena: &mut Option<Bump>,
) -> Option<bool> {
    plays(alloc, board, arena)?;
    match shows(alloc, session, settings, board) {
        Some(is_shown) => Some(is_shown),
        None => shows(alloc, session, settings, board),
    }
}

// The same on a board of its own.
fn is_played_in(alloc: Global, session: &Session, arena: &mut Option<Bump>) -> Option<bool> {
    let settings = Settings::new(2, 1, 1, 2, 1).ok()?;
    let mut board = new_board(alloc, session, settings)?;
    plays_and_shows(alloc, session, settings, &mut board, arena)
}

fn new_session(alloc: Global) -> Option<Session> {
    match session_of(alloc, LEVEL, "") {
        Some(session) => Some(session),
        None => session_of(alloc, LEVEL, ""),
    }
}

fn is_played(alloc: Global, arena: &mut Option<Bump>) -> Option<bool> {
    let session = new_session(alloc)?;
    is_played_in(alloc, &session, arena)
}

#[test]
fn refused_calls_are_repeated(rt: HostRuntime) {
    assert!(rt; is_played(rt.alloc(), &mut None) == Some(true));
}

#[test]
fn work_in_an_arena_comes_to_the_same(rt: HostRuntime) {
    let mut arena = Some(Bump::new(rt.alloc()));
    assert!(rt; is_played(rt.alloc(), &mut arena) == Some(true));
}
