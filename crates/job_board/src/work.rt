ghost use Rattle.std.specs.Prelude.{◌≡◌, ℕ, IfOk};
ghost use Rattle.game_rules.specs.Game.{Game};
ghost use Rattle.job_core.specs.declared.names.JobName.{JobName};
ghost use Rattle.frame_params.specs.Tasks.{IsTaskAt};

use bumpalo::Bump;
use frame_params::{BoardStep, LogicStep, Parked, Task, ThinkStep};
use std::alloc::{AllocError, Global};
use task_board::Done;

/// What the work of a job came to, kept for the job's next event.
#[derive(Drop)]
pub(crate) enum Work<'t> {
    /// A frame begins.
    Begins { frame: u32 },
    /// A Think stands at a question.
    Asks(Parked<'t>),
    /// The job is over. Of a Draw it is the mark of its band.
    Ends(Done<'t>),
}

impl<'t> Work<'t> {
    ghost use Rattle.job_board.specs.Works.{IsWorkOf, work_told};

    /// Does the work of a task, in an arena of its own. Of a band that is drawn its mark is kept: who shows the frame draws it
    /// for that.
    pub(crate) fn of(alloc: Global, task: &Task<'t>) -> Result<Work<'t>, AllocError>
        ensures { IfOk result (λ work. (g : Game) (j : JobName) (k : ℕ) → IsTaskAt g j k task.now → IsWorkOf g j k work) }
    {
        let arena = Bump::new(alloc);
        let (step, _band) = task.work_in(alloc, &arena)?.deliver();
        Ok(Work::told(task.name().frame(), step))
    }

    // What a board is told of the work of a job of this frame.
    fn told(frame: u32, step: BoardStep<'t>) -> Work<'t>
        ensures { result ≡ work_told frame step.entry }
    {
        match step {
            BoardStep::Logic(LogicStep::Begins) => Work::Begins { frame },
            BoardStep::Logic(LogicStep::Turned(turn)) => Work::Ends(Done::Turned(turn)),
            BoardStep::Think(ThinkStep::Ended(thought)) => Work::Ends(Done::Thought(thought)),
            BoardStep::Think(ThinkStep::Asks(parked)) => Work::Asks(parked),
            BoardStep::Path(way) => Work::Ends(Done::Way(way)),
            BoardStep::Draw(mark) => Work::Ends(Done::Drawn(mark)),
        }
    }
}
