// Worked runs: what an idle worker is given.
ghost use Rattle.std.specs.Prelude.{◌≡◌, [], ◌∷◌, ◌++◌, Some, None};
ghost use Rattle.job_core.specs.declared.names.JobName.TheVariants.{Logic, Think, Path, Draw};
ghost use Rattle.job_core.specs.declared.names.Event.TheVariants.{Start, Finish};
ghost use Rattle.job_core.specs.Core.{state};
ghost use Rattle.job_core.specs.Priorities.{GoesFirst};
ghost use Rattle.job_core.specs.Worked.{two_slots, two_agents, no_agents, second_begun, spread_once, asked_once, one_drawn};
ghost use Rattle.board_model.specs.Board.{core_of};
ghost use Rattle.board_model.specs.Pick.{Ready, New, given};

/// Paths come before draws and thinks, and a job whose fiber is ready before a new one of its kind.
pub fn paths_and_ready_fibers_come_first()
    ensures before_a_draw { given (core_of two_slots second_begun) ≡ Some (New (Path 2 0 0)) }
    ensures thinks_in_order { given (core_of (two_agents 3) spread_once) ≡ Some (New (Think 1 0)) }
    ensures before_a_think { given (core_of (two_agents 3) asked_once) ≡ Some (New (Path 1 0 0)) }
    ensures ready_first { given (core_of (two_agents 3) (asked_once ++ Start 0 (Path 1 0 0) ∷ Finish 0 (Path 1 0 0) ∷ [])) ≡ Some (Ready 2) }
{}

/// A Think that is ready comes before draws, and so does the next Logic, also where draws alone have a fiber that it could not take.
pub fn draws_come_last()
    ensures think { given (core_of two_slots (second_begun ++ Start 0 (Path 2 0 0) ∷ Finish 0 (Path 2 0 0) ∷ [])) ≡ Some (Ready 2) }
    ensures logic { given (core_of (no_agents 2) one_drawn) ≡ Some (New (Logic 2)) }
    ensures draw { given (core_of (no_agents 2) (one_drawn ++ Start 1 (Logic 2) ∷ [])) ≡ Some (New (Draw 1 1)) }
    ensures nothing { given (core_of (no_agents 1) (one_drawn ++ Start 1 (Logic 2) ∷ [])) ≡ None }
{}

/// A Path goes first where a Think may start too, and a Think that is ready where another may start.
pub fn a_path_and_a_ready_think_go_first()
    ensures path { GoesFirst (two_agents 3) (state (two_agents 3) asked_once) (Path 1 0 0) }
    ensures no_think { GoesFirst (two_agents 3) (state (two_agents 3) asked_once) (Think 1 1) → ⊥ }
    ensures ready { GoesFirst (two_agents 3) (state (two_agents 3) (asked_once ++ Start 0 (Path 1 0 0) ∷ Finish 0 (Path 1 0 0) ∷ [])) (Think 1 0) }
    ensures no_new_one { GoesFirst (two_agents 3) (state (two_agents 3) (asked_once ++ Start 0 (Path 1 0 0) ∷ Finish 0 (Path 1 0 0) ∷ [])) (Think 1 1) → ⊥ }
{}
