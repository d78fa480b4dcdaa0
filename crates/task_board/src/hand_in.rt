ghost use Rattle.std.specs.Prelude.{◌≡◌, IfErr, OnOk, OnErr};
ghost use Rattle.job_core.specs.declared.names.Event.TheVariants.{Finish};
ghost use Rattle.task_board.specs.Boards.{Happens, IsRefused};
ghost use Rattle.task_board.specs.Dones.{game_done, job_done, step_done, IsOtherDone};
ghost use Rattle.frame_params.specs.BoardSteps.{IsToldIn};
ghost use Rattle.task_board.specs.HandedIn.{HasBegun, IsBeginRefused, IsHandedIn, IsHandInRefused};

use super::board::TaskBoard;
use super::refused::Refused;
use crate::done::Done;
use crate::retired::Retired;
use frame_params::{BoardStep, LogicStep, ThinkStep};
use job_scheduler::BoardFault;

impl<'t> TaskBoard<'t> {
    /// Hands in what a worker's task came to: a frame that begins is spread, or held where it has no slot; a Think that
    /// has a question asks it; every other job is over. The step is of the board's own game, as what comes of a task is
    /// that `take` gave: no sessions are compared. Of a drawn band the board gets the mark alone.
    #[inline(always)]
    pub fn hand_in(
        &mut self,
        worker: u32,
        step: BoardStep<'t>,
    ) -> Result<(), Refused<BoardStep<'t>>>
        requires { IsToldIn self.old.game step }
        ensures ok { OnOk result (IsHandedIn self.old self.new worker step.entry) }
        ensures refused { IfErr result (λ r. IsHandInRefused self.old worker step.entry r.fault) }
        ensures back { IfErr result (λ r. r.value ≡ step.entry) }
        ensures unchanged { OnErr result (self.new ≡ self.old) }
    {
        match step {
            BoardStep::Logic(LogicStep::Begins) => match self.begin_frame(worker) {
                Ok(()) => Ok(()),
                Err(fault) => Err(Refused {
                    fault,
                    value: BoardStep::Logic(LogicStep::Begins),
                }),
            },
            BoardStep::Logic(LogicStep::Turned(turn)) => {
                self.hand_in_end(worker, Done::Turned(turn))
            }
            BoardStep::Think(ThinkStep::Ended(thought)) => {
                self.hand_in_end(worker, Done::Thought(thought))
            }
            BoardStep::Think(ThinkStep::Asks(parked)) => match self.ask_own(worker, parked) {
                Ok(()) => Ok(()),
                Err(refused) => Err(Refused {
                    fault: refused.fault,
                    value: BoardStep::Think(ThinkStep::Asks(refused.value)),
                }),
            },
            BoardStep::Path(way) => self.hand_in_end(worker, Done::Way(way)),
            BoardStep::Draw(mark) => self.hand_in_end(worker, Done::Drawn(mark)),
        }
    }

    /// Takes out what the last events have left over: it is let go sooner outside a lock.
    #[inline(always)]
    pub fn take_retired(&mut self) -> Retired<'t>
        ensures { self.new ≡ self.old }
    {
        self.frame_store.take_retired()
    }

    // The worker's frame begins: its thinks are queued, or it waits for its slot.
    fn begin_frame(&mut self, worker: u32) -> Result<(), BoardFault>
        ensures ok { OnOk result (HasBegun self.old self.new worker) }
        ensures refused { IfErr result (IsBeginRefused self.old worker) }
        ensures unchanged { OnErr result (self.new ≡ self.old) }
    {
        let frame = self.beginning(worker)?;
        if self.jobs.has_slot(frame) {
            self.spread(worker)
        } else {
            self.hold(worker)
        }
    }

    // The worker's job is over; it comes back as the step that it was.
    #[inline(always)]
    fn hand_in_end(&mut self, worker: u32, done: Done<'t>) -> Result<(), Refused<BoardStep<'t>>>
        requires { game_done done ≡ self.old.game }
        ensures ok { OnOk result (Happens self.old self.new (Finish worker (job_done done.entry))) }
        ensures refused { IfErr result (λ r. IsRefused self.old worker (IsOtherDone done.entry self.old.game) (Finish worker) r.fault) }
        ensures back { IfErr result (λ r. r.value ≡ step_done done.entry) }
        ensures unchanged { OnErr result (self.new ≡ self.old) }
    {
        match self.finish_own(worker, done) {
            Ok(()) => Ok(()),
            Err(refused) => Err(Refused {
                fault: refused.fault,
                value: refused.value.into_step(),
            }),
        }
    }
}
