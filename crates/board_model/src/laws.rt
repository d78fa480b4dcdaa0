// Laws over the definitions alone.
ghost use Rattle.std.specs.Prelude.{◌≡◌, ◌<◌, ◌↔◌, List, ℕ, Some, None, false};
ghost use Rattle.job_core.specs.declared.names.Event.{Event};
ghost use Rattle.job_core.specs.Core.{Setup, IsIdle, IsReady, IsLegal, IsLegalList, state};
ghost use Rattle.job_core.specs.Priorities.{MayStart, GoesFirst};
ghost use Rattle.job_core.specs.declared.names.Event.TheVariants.{Start, Resume};
ghost use Rattle.job_core.specs.declared.names.JobName.{JobName};
ghost use Rattle.board_model.specs.Lists.{at};
ghost use Rattle.board_model.specs.Board.{Held, core_of};
ghost use Rattle.board_model.specs.Pick.{Ready, New, given};
ghost use Rattle.board_model.specs.Passes.{Passes};
ghost use Rattle.board_model.specs.Law.{Fits};
ghost use Rattle.board_model.specs.Stored.{stored_after};
ghost use Rattle.board_model.specs.Needed.{HasPlaces, IsThere};

/// After each legal log what is kept fits the state.
pub fn what_is_kept_fits()
    ensures { (s : Setup) (log : List Event) → 0 < s.slots → IsLegalList s log → Fits s (core_of s log) (state s log) }
{}

/// An idle worker is given nothing exactly where it can neither start nor resume a job.
pub fn nothing_is_given_where_nothing_may_start()
    ensures { (s : Setup) (log : List Event) (w : ℕ) → 0 < s.slots → IsLegalList s log → (state s log).stopped ≡ false → w < s.workers → IsIdle (state s log) w → (given (core_of s log) ≡ None) ↔ ((j : JobName) → (IsLegal s (state s log) (Start w j) → ⊥) × (IsLegal s (state s log) (Resume w j) → ⊥)) }
{}

/// What an idle worker is given goes first: no job of a higher priority is ready or may start, and where it is a new one none of
/// its priority is ready.
pub fn what_is_given_goes_first()
    ensures new_job { (s : Setup) (log : List Event) (j : JobName) → 0 < s.slots → IsLegalList s log → given (core_of s log) ≡ Some (New j) → MayStart s (state s log) j × GoesFirst s (state s log) j }
    ensures ready_job { (s : Setup) (log : List Event) (f : ℕ) → 0 < s.slots → IsLegalList s log → given (core_of s log) ≡ Some (Ready f) → (h : Held) × (at (core_of s log).seats.jobs f ≡ Some h) × IsReady s (state s log) h.job × GoesFirst s (state s log) h.job }
{}

/// What the code tests, of what is kept alone, passes exactly where the event is legal.
pub fn tests_pass_where_events_are_legal()
    ensures { (s : Setup) (log : List Event) (e : Event) → 0 < s.slots → IsLegalList s log → (((core_of s log).stopped ≡ false) × Passes s (core_of s log) e) ↔ IsLegal s (state s log) e }
{}

/// What each legal event needs of the values that the events before it have stored is there.
pub fn what_is_needed_is_stored()
    ensures there { (s : Setup) (log : List Event) (e : Event) → 0 < s.slots → IsLegalList s log → IsLegal s (state s log) e → IsThere s (state s log) (stored_after s log) e }
    ensures places { (s : Setup) (log : List Event) → 0 < s.slots → IsLegalList s log → HasPlaces s (stored_after s log) }
{}
