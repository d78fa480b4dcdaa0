// Laws over the definitions alone.
ghost use Rattle.std.specs.Prelude.{◌≡◌, ℕ, List, Some, All, length};
ghost use Rattle.std.specs.List.{AllPairs, sum_by};
ghost use Rattle.job_core.specs.declared.names.Event.{Event};
ghost use Rattle.job_core.specs.declared.names.JobName.{JobName};
ghost use Rattle.job_core.specs.Names.{frame_of};
ghost use Rattle.trace_text.specs.declared.board.Board.{Board};
ghost use Rattle.trace_text.specs.Jobs.{joined_by};
ghost use Rattle.job_core.specs.Core.{Setup, IsLegalList};
ghost use Rattle.trace_text.specs.Slices.{slices_of};
ghost use Rattle.trace_text.specs.Laws.{AreApart, AreInTurn, BeginsBefore, IsWithin, EndsIn, begins, IsOf, agent_in};

/// Slices of one worker don't overlap, whatever the list.
pub fn slices_of_a_worker_are_apart()
    ensures { (events : List Event) → AllPairs AreApart (slices_of events) }
{}

/// Slices stand in the order in which they begin; none is empty, or reaches past the list.
pub fn slices_stand_in_order()
    ensures order { (events : List Event) → AllPairs BeginsBefore (slices_of events) }
    ensures within { (events : List Event) → All (IsWithin (length events)) (slices_of events) }
{}

/// Each start and each resume begins one slice, and nothing else does.
pub fn each_begin_has_its_slice()
    ensures { (events : List Event) → length (slices_of events) ≡ sum_by begins events }
{}

/// In a legal list a worker leaves the very job that its slice is of.
pub fn slices_end_with_their_job()
    ensures { (s : Setup) (events : List Event) → IsLegalList s events → All (EndsIn events) (slices_of events) }
{}

/// In a legal list the slices of one job don't overlap, whichever workers run them.
pub fn slices_of_a_job_are_in_turn()
    ensures { (s : Setup) (events : List Event) → IsLegalList s events → AllPairs AreInTurn (slices_of events) }
{}

/// A number joins jobs of one Logic, or of one Think with its Paths, and no others, where the agents are the board's.
pub fn arrows_join_one_logic_or_think()
    ensures { (board : Board) (one other : JobName) (n : ℕ) → IsOf board one → IsOf board other → joined_by board one ≡ Some n → joined_by board other ≡ Some n
        → (frame_of one ≡ frame_of other) × (agent_in one ≡ agent_in other) }
{}
