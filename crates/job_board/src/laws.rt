// Laws over what a board is seen as.
ghost use Rattle.std.specs.Prelude.{◌≡◌, false};
ghost use Rattle.job_core.specs.declared.names.Event.{Event};
ghost use Rattle.job_core.specs.Core.{IsLegalList, IsComplete};
ghost use Rattle.job_scheduler.specs.Numbers.{IsWithinLimits};
ghost use Rattle.job_scheduler.specs.declared.board_fault.BoardFault.{BoardFault};
ghost use Rattle.job_scheduler.specs.declared.board_fault.BoardFault.TheVariants.{OutOfMemory};
ghost use Rattle.task_board.specs.Boards.{setup_in, state_in};
ghost use Rattle.job_board.specs.Playing.{Playing, IsOwn, IsApplyRefused, IsEnabled, IsStuck};

/// What `enabled` gave is refused by `apply` only when out of memory.
pub fn what_is_enabled_is_applied()
    ensures { (b : Playing) (e : Event) (fault : BoardFault) → IsEnabled b e → IsApplyRefused b e fault → fault ≡ OutOfMemory }
{}

/// A board for which `enabled` gives an event is not stuck, so it gives None exactly where the board is.
pub fn a_stuck_board_enables_nothing()
    ensures { (b : Playing) (e : Event) → IsEnabled b e → IsStuck b → ⊥ }
{}

/// A board that hands nothing out is stuck only where it is stopped or done: `enabled` and `apply` drive a game to its end.
pub fn what_is_driven_ends_done()
    ensures { (b : Playing) → IsWithinLimits b.run.numbers.frames b.run.numbers.workers b.run.numbers.small b.run.numbers.large b.run.numbers.slots → IsLegalList (setup_in b.run) b.run.events
        → (state_in b.run).stopped ≡ false → IsOwn b → IsStuck b → IsComplete (setup_in b.run) b.run.events }
{}
