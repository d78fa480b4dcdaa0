ghost use Rattle.std.specs.Prelude.{◌≡◌, Some};
ghost use Rattle.std.specs.Coded.{Coded-set, coded_option};
ghost use Rattle.game_session.specs.GameCode.{game_code};
ghost use Rattle.frame_params.specs.Tasks.{game_of};

use crate::ledger::RunLedger;
use frame_params::Task;
use std::marker::PhantomData;

/// A task of the run that `L` names: whoever has it knows that it is of this run's game.
#[derive(Drop)]
pub struct RunTask<'t, L: RunLedger> {
    pub task: Task<'t>,
    pub of: PhantomData<L>,
    pub ghost game_is: { L.game ≡ Some (game_of task) } by { Coded-set (coded_option game_code) L.game (Some (game_of task)) },
}

impl<'t, L: RunLedger> RunTask<'t, L> {
    /// A task of the run's game.
    #[inline(always)]
    pub fn new(task: Task<'t>) -> RunTask<'t, L>
        requires { L.game ≡ Some (game_of task) }
        ensures { result.task ≡ task.entry }
    {
        RunTask {
            task,
            of: PhantomData,
        }
    }
}
