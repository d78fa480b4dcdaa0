// Laws of what comes before what, and of what jobs share.
ghost use Rattle.std.specs.Prelude.{◌≡◌, ◌≤◌, ◌<◌, ◌++◌, ℕ, suc, List, [], ◌∷◌};
ghost use Rattle.job_core.specs.declared.names.Event.{Event};
ghost use Rattle.job_core.specs.declared.names.Event.TheVariants.{Start, Stop};
ghost use Rattle.job_core.specs.declared.names.JobName.{JobName};
ghost use Rattle.job_core.specs.declared.names.JobName.TheVariants.{Logic, Think, Path, Draw};
ghost use Rattle.job_core.specs.declared.names.Size.{Size};
ghost use Rattle.job_core.specs.Core.{Setup, Runs, Waits, Finished, IsLegal, IsLegalList, IsRun, size_of, held_in, pool, over_jobs, state};

/// A Logic starts once the one before it is over, a Think once its Logic has spread, a Path once its Think has asked its
/// question, and a Draw once its Logic is over.
pub fn each_job_starts_after_what_it_needs()
    ensures logic { (s : Setup) (events : List Event) (worker frame : ℕ) → IsLegalList s events → 0 < frame → IsLegal s (state s events) (Start worker (Logic (suc frame))) → (state s events).phase (Logic frame) ≡ Finished }
    ensures think { (s : Setup) (events : List Event) (worker frame agent : ℕ) → IsLegalList s events → IsLegal s (state s events) (Start worker (Think frame agent)) → (state s events).phase (Logic frame) ≡ Waits 1 }
    ensures path { (s : Setup) (events : List Event) (worker frame agent question : ℕ) → IsLegalList s events → IsLegal s (state s events) (Start worker (Path frame agent question)) → (state s events).phase (Think frame agent) ≡ Waits (suc question) }
    ensures draw { (s : Setup) (events : List Event) (worker frame band : ℕ) → IsLegalList s events → IsLegal s (state s events) (Start worker (Draw frame band)) → (state s events).phase (Logic frame) ≡ Finished }
{}

/// A worker is one of the workers, and runs one job at a time.
pub fn workers_run_one_job_each()
    ensures one { (s : Setup) (events : List Event) (job other : JobName) (worker step further : ℕ) → IsLegalList s events → (state s events).phase job ≡ Runs worker step → (state s events).phase other ≡ Runs worker further → job ≡ other }
    ensures below { (s : Setup) (events : List Event) (job : JobName) (worker step : ℕ) → IsLegalList s events → (state s events).phase job ≡ Runs worker step → worker < s.workers }
{}

/// No more jobs of a size are started and not finished than there are fibers of it.
pub fn jobs_keep_to_their_fibers()
    ensures { (s : Setup) (events : List Event) (size : Size) → IsLegalList s events → over_jobs s (λ job. held_in size (size_of job) ((state s events).phase job)) ≤ pool s size }
{}

/// A run can be stopped at any time, and nothing happens afterwards.
pub fn a_stop_is_the_last_event()
    ensures any_time { (s : Setup) (events : List Event) → IsRun s events → IsLegal s (state s events) Stop }
    ensures last { (s : Setup) (events : List Event) (event : Event) → IsLegal s (state s (events ++ Stop ∷ [])) event → ⊥ }
{}
