//! What no clause says: that calls of a board succeed where there is memory, with the answers that a walk has to get.
use super::walk::{DRAW, LOGIC, PATH, THINK, WALKED, board_of, is_walked, walk};
use frame_params::{BoardStep, LogicStep, Task, ThinkStep, Way};
use game_session::Session;
use job_board::{Board, BoardFault, Done, Event, JobName, Refused};
use std::alloc::Global;

/// A call of a board, by worker 0 where no other one is said.
#[derive(Clone, Copy)]
enum Call {
    /// Takes a task, works it and hands in what it comes to.
    Play,
    /// Takes a task and doesn't work it.
    Take { worker: u32 },
    Spread,
    Hold,
    /// Hands in the way that a question of another board got.
    HandInWay,
    Emit,
    Apply(Event),
    /// Applies the events of the walk's first frame one by one.
    ApplyWalk,
    Enabled,
    Stop,
    IsDone,
    IsStopped,
    /// Whether the events are those of the walk's first frame.
    IsWalked,
    LastEvent,
}

/// What a call answers.
#[derive(Clone, Copy, Debug, PartialEq, Eq)]
enum Answer {
    Done,
    Job(JobName),
    Nothing,
    Shown(u32),
    Event(Option<Event>),
    Is(bool),
    Refused(BoardFault),
    /// A result is refused, and the one of this job comes back.
    Back(BoardFault, JobName),
    OutOfMemory,
}

fn told(outcome: Result<(), BoardFault>) -> Answer {
    match outcome {
        Ok(()) => Answer::Done,
        Err(fault) => Answer::Refused(fault),
    }
}

// A Logic that begins spreads; a frame that is turned is over.
fn hand_in<'t>(board: &mut Board<'t>, step: BoardStep<'t>) -> Option<()> {
    match step {
        BoardStep::Logic(LogicStep::Begins) => board.spread(0).ok(),
        BoardStep::Logic(LogicStep::Turned(turn)) => board.finish(0, Done::Turned(turn)).ok(),
        BoardStep::Think(ThinkStep::Ended(thought)) => board.finish(0, Done::Thought(thought)).ok(),
        BoardStep::Think(ThinkStep::Asks(parked)) => board.ask(0, parked).ok(),
        BoardStep::Path(way) => board.finish(0, Done::Way(way)).ok(),
        BoardStep::Draw(mark) => board.finish(0, Done::Drawn(mark)).ok(),
    }
}

fn played(alloc: Global, board: &mut Board) -> Option<JobName> {
    let task = board.take(0).ok()??;
    let job = task.name();
    let step = task.work(alloc).ok()?;
    hand_in(board, step.deliver().0)?;
    Some(job)
}

// The way that a Path's task comes to.
fn way_by<'t>(alloc: Global, task: &Task<'t>) -> Option<Way<'t>> {
    let step = task.work(alloc).ok()?;
    let (told, _band) = step.deliver();
    match told {
        BoardStep::Path(way) => Some(way),
        BoardStep::Logic(_) | BoardStep::Think(_) | BoardStep::Draw(_) => None,
    }
}

// The answer to the walk's question, of a board of its own that is played as far as that.
fn way_of<'t>(alloc: Global, session: &'t Session) -> Option<Way<'t>> {
    let mut board = board_of(alloc, session, 1, 3)?;
    played(alloc, &mut board)?;
    played(alloc, &mut board)?;
    let task = board.take(0).ok()??;
    way_by(alloc, &task)
}

fn apply_walk(board: &mut Board) -> Answer {
    for event in &WALKED {
        if let Err(fault) = board.apply(*event) {
            return Answer::Refused(fault);
        }
    }
    Answer::Done
}

fn refused_way<'t>(board: &mut Board<'t>, way: Way<'t>) -> Answer {
    match board.finish(0, Done::Way(way)) {
        Ok(()) => Answer::Done,
        Err(Refused { fault, value }) => Answer::Back(fault, value.name()),
    }
}

fn reply<'t>(alloc: Global, session: &'t Session, board: &mut Board<'t>, call: Call) -> Answer {
    match call {
        Call::Play => match played(alloc, board) {
            Some(job) => Answer::Job(job),
            None => Answer::Nothing,
        },
        Call::Take { worker } => match board.take(worker) {
            Ok(Some(task)) => Answer::Job(task.name()),
            Ok(None) => Answer::Nothing,
            Err(fault) => Answer::Refused(fault),
        },
        Call::Spread => told(board.spread(0)),
        Call::Hold => told(board.hold(0)),
        Call::HandInWay => match way_of(alloc, session) {
            Some(way) => refused_way(board, way),
            None => Answer::OutOfMemory,
        },
        Call::Emit => match board.emit() {
            Ok(shown) => Answer::Shown(shown.frame()),
            Err(fault) => Answer::Refused(fault),
        },
        Call::Apply(event) => told(board.apply(event)),
        Call::ApplyWalk => apply_walk(board),
        Call::Enabled => Answer::Event(board.enabled()),
        Call::Stop => {
            board.stop();
            Answer::Done
        }
        Call::IsDone => Answer::Is(board.is_done()),
        Call::IsStopped => Answer::Is(board.is_stopped()),
        Call::IsWalked => Answer::Is(is_walked(board.events())),
        Call::LastEvent => Answer::Event(board.events().last().copied()),
    }
}

const SECOND_LOGIC: JobName = JobName::Logic { frame: 2 };

const SECOND_THINK: JobName = JobName::Think { frame: 2, agent: 0 };

const SECOND_PATH: JobName = JobName::Path {
    frame: 2,
    agent: 0,
    question: 0,
};

const START: Event = Event::Start {
    worker: 0,
    job: LOGIC,
};

const ASK: Event = Event::Ask {
    worker: 0,
    job: THINK,
};

const TAKE: Call = Call::Take { worker: 0 };

/// Calls of a board of so many frames and slots, each with its answer.
struct Rows {
    name: &'static str,
    frames: u32,
    slots: u32,
    calls: &'static [(Call, Answer)],
}

const ILLEGAL: Answer = Answer::Refused(BoardFault::Illegal);

const STOPPED: Answer = Answer::Refused(BoardFault::Stopped);

const BOARD_CALLS: [Rows; 6] = [
    Rows {
        name: "a frame is played by one worker",
        frames: 1,
        slots: 3,
        calls: &[
            (Call::Play, Answer::Job(LOGIC)),
            (Call::Play, Answer::Job(THINK)),
            (Call::Play, Answer::Job(PATH)),
            (Call::Play, Answer::Job(THINK)),
            (Call::Play, Answer::Job(LOGIC)),
            (Call::Play, Answer::Job(DRAW)),
            (Call::Emit, Answer::Shown(1)),
            (Call::IsWalked, Answer::Is(true)),
            (Call::IsDone, Answer::Is(true)),
            (TAKE, Answer::Nothing),
            (Call::Emit, ILLEGAL),
        ],
    },
    Rows {
        name: "a Logic holds until its slot is free",
        frames: 2,
        slots: 1,
        calls: &[
            (Call::Play, Answer::Job(LOGIC)),
            (Call::Play, Answer::Job(THINK)),
            (Call::Play, Answer::Job(PATH)),
            (Call::Play, Answer::Job(THINK)),
            (Call::Play, Answer::Job(LOGIC)),
            (TAKE, Answer::Job(SECOND_LOGIC)),
            (Call::Spread, ILLEGAL),
            (Call::Hold, Answer::Done),
            (Call::Play, Answer::Job(DRAW)),
            (TAKE, Answer::Nothing),
            (Call::Emit, Answer::Shown(1)),
            (TAKE, Answer::Job(SECOND_LOGIC)),
            (Call::Spread, Answer::Done),
            (Call::IsDone, Answer::Is(false)),
            (Call::Play, Answer::Job(SECOND_THINK)),
            (Call::Play, Answer::Job(SECOND_PATH)),
            (Call::Play, Answer::Job(SECOND_THINK)),
            (Call::Play, Answer::Job(SECOND_LOGIC)),
            (Call::Play, Answer::Job(JobName::Draw { frame: 2, band: 0 })),
            (Call::Emit, Answer::Shown(2)),
            (Call::IsDone, Answer::Is(true)),
        ],
    },
    Rows {
        name: "a board names its first fault",
        frames: 1,
        slots: 3,
        calls: &[
            (Call::Hold, Answer::Refused(BoardFault::NotRunning)),
            (TAKE, Answer::Job(LOGIC)),
            (TAKE, Answer::Refused(BoardFault::Busy)),
            (
                Call::Take { worker: 1 },
                Answer::Refused(BoardFault::NoWorker),
            ),
            (Call::Hold, ILLEGAL),
            (Call::HandInWay, Answer::Back(BoardFault::WrongResult, PATH)),
            (Call::Stop, Answer::Done),
            (TAKE, STOPPED),
            (Call::Spread, STOPPED),
            (Call::Emit, STOPPED),
        ],
    },
    Rows {
        name: "given events are done one by one",
        frames: 1,
        slots: 3,
        calls: &[
            (Call::Enabled, Answer::Event(Some(START))),
            (Call::Apply(Event::Emit { frame: 1 }), ILLEGAL),
            (Call::ApplyWalk, Answer::Done),
            (Call::IsWalked, Answer::Is(true)),
            (Call::Enabled, Answer::Event(None)),
            (Call::IsDone, Answer::Is(true)),
        ],
    },
    Rows {
        name: "an event of a job that was handed out is left to its worker",
        frames: 1,
        slots: 3,
        calls: &[
            (TAKE, Answer::Job(LOGIC)),
            (Call::Spread, Answer::Done),
            (TAKE, Answer::Job(THINK)),
            (Call::Apply(ASK), Answer::Refused(BoardFault::NotRunning)),
            (Call::Enabled, Answer::Event(None)),
        ],
    },
    Rows {
        name: "a stopped board enables nothing",
        frames: 1,
        slots: 3,
        calls: &[
            (Call::Stop, Answer::Done),
            (Call::IsStopped, Answer::Is(true)),
            (Call::Enabled, Answer::Event(None)),
            (Call::Apply(Event::Stop), STOPPED),
            (Call::IsDone, Answer::Is(false)),
            (Call::LastEvent, Answer::Event(Some(Event::Stop))),
        ],
    },
];

// The number of the first call whose answer is another, and that answer; or how many calls there are.
fn first_wrong(alloc: Global, rows: &Rows) -> Option<(usize, Option<Answer>)> {
    let session = walk(alloc)?;
    let mut board = board_of(alloc, &session, rows.frames, rows.slots)?;
    for (number, (call, wanted)) in rows.calls.iter().enumerate() {
        let found = reply(alloc, &session, &mut board, *call);
        if found != *wanted {
            return Some((number, Some(found)));
        }
    }
    Some((rows.calls.len(), None))
}

#[test]
fn calls_are_answered(rt: HostRuntime) {
    for rows in &BOARD_CALLS {
        let wrong = first_wrong(rt.alloc(), rows);
        assert!(rt;
            wrong == Some((rows.calls.len(), None)),
            "{}: {wrong:?}",
            rows.name
        );
    }
}
