// What no clause says: that the tasks of a frame are made and worked where there is memory, and what they come to.
ghost use Rattle.std.specs.Prelude.{◌≡◌, ◌∷◌, [], IfSome, length};
ghost use Rattle.frame_state.specs.Names.{part_of, question_of, AreOfAllAgents};

use super::walk::{DRAW, LOGIC, PATH, THINK, walk};
use bt_nodes::Status;
use frame_params::{
    BandOut, DrawTask, FrameParams, LogicStep, LogicTask, Parked, PathTask, ThinkStep, ThinkTask,
    Thought, Turn, Way,
};
use game_session::Session;
use grid_world::{Agent, Answer, Dir};
use job_board::JobName;
use std::alloc::Global;

// Whether the frame's logic, at its start, begins.
fn begins(alloc: Global, session: &Session) -> Option<bool> {
    let task = LogicTask::start(alloc, session, 1).ok()?;
    let step = task.work(alloc).ok()?;
    Some(task.name() == LOGIC && matches!(&step, LogicStep::Begins))
}

// The agent's think, at its start, asks its question.
fn asks<'t>(alloc: Global, params: &FrameParams<'t>) -> Option<Parked<'t>>
    requires { length params.now.game.trees ≡ 1 }
    ensures { IfSome result (λ parked. parked ≡ question_of params.now.game params.now.frame 0 0) }
{
    let Ok(task) = ThinkTask::start(alloc, params, 0) else {
        return None;
    };
    if task.name() != THINK {
        return None;
    }
    match task.work(alloc) {
        Ok(ThinkStep::Asks(parked)) => Some(parked),
        Ok(ThinkStep::Ended(_)) | Err(_) => None,
    }
}

// The path of the question comes to its way.
fn finds<'t>(alloc: Global, params: &FrameParams<'t>, parked: &Parked<'t>) -> Option<Way<'t>>
    requires game { parked.now.game ≡ params.now.game }
    requires frame { parked.now.frame ≡ params.now.frame }
    ensures { IfSome result (λ way. way ≡ parked.now) }
{
    let Ok(task) = PathTask::of(alloc, params, parked) else {
        return None;
    };
    if task.name() != PATH {
        return None;
    }
    let Ok(way) = task.work(alloc) else {
        return None;
    };
    if way.answer() != Answer::Step(Dir::East, 2) {
        return None;
    }
    Some(way)
}

// The agent's think goes on with the way to its end.
fn ends<'t>(
    alloc: Global,
    params: &FrameParams<'t>,
    parked: &Parked<'t>,
    way: &Way<'t>,
) -> Option<Thought<'t>>
    requires game { parked.now.game ≡ params.now.game }
    requires frame { parked.now.frame ≡ params.now.frame }
    requires way { way.now ≡ parked.now }
    ensures { IfSome result (λ thought. thought ≡ part_of params.now.game params.now.frame parked.now.agent) }
{
    let Ok(task) = ThinkTask::resume(alloc, params, parked, way) else {
        return None;
    };
    if task.name() != THINK {
        return None;
    }
    match task.work(alloc) {
        Ok(ThinkStep::Ended(thought)) => Some(thought),
        _ => None,
    }
}

// The frame's logic, after the only think, turns the frame.
fn turns<'t>(alloc: Global, params: &FrameParams<'t>, thought: Thought<'t>) -> Option<Turn<'t>>
    requires { AreOfAllAgents params.now (thought ∷ []) }
    ensures { IfSome result (λ turn. turn ≡ params.now) }
{
    let thoughts = [thought];
    let task = LogicTask::turn(alloc, params, &thoughts).ok()?;
    if task.name() != LOGIC {
        return None;
    }
    match task.work(alloc).ok()? {
        LogicStep::Turned(turn) => Some(turn),
        LogicStep::Begins => None,
    }
}

// The frame, task by task.
fn turned<'t>(alloc: Global, params: &FrameParams<'t>) -> Option<Turn<'t>>
    requires { length params.now.game.trees ≡ 1 }
    ensures { IfSome result (λ turn. turn ≡ params.now) }
{
    let parked = asks(alloc, params)?;
    let way = finds(alloc, params, &parked)?;
    let thought = ends(alloc, params, &parked, &way)?;
    if thought.questions() != 1 {
        return None;
    }
    turns(alloc, params, thought)
}

// Whether the agent has gone one step, and would go on.
fn has_moved(turn: &Turn) -> bool {
    let gone = Agent {
        x: 1,
        y: 0,
        carrying: false,
    };
    turn.name() == LOGIC
        && turn.statuses() == [Status::Running].as_slice()
        && turn.world().agents() == [gone].as_slice()
}

// The first band of a turned frame.
fn draws<'t>(alloc: Global, turn: &Turn<'t>) -> Option<BandOut<'t>> {
    if turn.bands() != 1 {
        return None;
    }
    let task = DrawTask::of(alloc, turn, 0).ok()?;
    if task.name() != DRAW {
        return None;
    }
    task.work(alloc).ok()
}

// Whether that is the row of the map with the agent in the middle.
fn is_drawn(alloc: Global, turn: &Turn) -> Option<bool> {
    let band = draws(alloc, turn)?.into_band();
    Some(band.number == 0 && band.rows.as_bytes() == b".A0\n".as_slice())
}

// The agent's think in the frame after a turned one, by its name.
fn think_after(alloc: Global, turn: &Turn) -> Option<JobName>
    requires frame { turn.now.frame ≡ 1 }
    requires trees { length turn.now.game.trees ≡ 1 }
{
    let params = FrameParams::after(alloc, turn).ok()?;
    let task = ThinkTask::start(alloc, &params, 0).ok()?;
    Some(task.name())
}

fn goes_on(alloc: Global, session: &Session) -> Option<[bool; 4]> {
    if session.world().agents().len() != 1 {
        return None;
    }
    let begun = begins(alloc, session)?;
    let params = FrameParams::first(alloc, session).ok()?;
    let turn = turned(alloc, &params)?;
    Some([
        begun,
        has_moved(&turn),
        is_drawn(alloc, &turn)?,
        think_after(alloc, &turn)? == JobName::Think { frame: 2, agent: 0 },
    ])
}

fn is_played(alloc: Global) -> Option<[bool; 4]> {
    let session = walk(alloc)?;
    goes_on(alloc, &session)
}

#[test]
fn each_task_of_a_frame_is_made_and_worked(rt: HostRuntime) {
    assert!(rt; is_played(rt.alloc()) == Some([true; 4]));
}
