// However the jobs of a game are scheduled, the same comes of it.
ghost use Rattle.std.specs.Prelude.{◌≡◌, ◌≤◌, ◌<◌, ◌+◌, ◌*◌, ◌^◌, ℕ, List, [], length, slice_index_or};
ghost use Rattle.bt_nodes.specs.Sizes.{size};
ghost use Rattle.job_core.specs.declared.names.Event.{Event};
ghost use Rattle.job_core.specs.declared.names.JobName.{JobName};
ghost use Rattle.job_core.specs.Core.{Setup, IsJob, IsComplete};
ghost use Rattle.job_core.specs.Amounts.{most, starts, finishes, holds};
ghost use Rattle.job_core.specs.Values.{values};
ghost use Rattle.game_rules.specs.Game.{Game};
ghost use Rattle.game_rules.specs.Play.{play};
ghost use Rattle.game_rules.specs.Text.{texts};
ghost use Rattle.game_jobs.specs.Instance.{played, setup, tree_of};
ghost use Rattle.game_jobs.specs.Stuck.{IsStuckRun};

/// A run of a game that can't go on but by a Stop is complete: it has emitted the text of the first N frames, keeps the
/// world and the memories after frame N, and has started and finished each job once.
pub fn a_stuck_run_has_played_the_game()
    ensures complete { (g : Game) (frames bands workers small large slots : ℕ) (events : List Event) → let s : Setup = setup g frames bands workers small large slots in IsStuckRun s events → IsComplete s events }
    ensures output { (g : Game) (frames bands workers small large slots : ℕ) (events : List Event) → let s : Setup = setup g frames bands workers small large slots in IsStuckRun s events → (values (played g) s events).output ≡ texts g frames }
    ensures world { (g : Game) (frames bands workers small large slots : ℕ) (events : List Event) → let s : Setup = setup g frames bands workers small large slots in IsStuckRun s events → (values (played g) s events).kept.world ≡ (play g frames).world }
    ensures memories { (g : Game) (frames bands workers small large slots : ℕ) (events : List Event) (agent : ℕ) → let s : Setup = setup g frames bands workers small large slots in IsStuckRun s events → agent < length g.trees → (values (played g) s events).kept.memories agent ≡ slice_index_or (play g frames).memories agent [] }
    ensures once { (g : Game) (frames bands workers small large slots : ℕ) (events : List Event) (job : JobName) → let s : Setup = setup g frames bands workers small large slots in IsStuckRun s events → IsJob s job → (starts job events ≡ 1) × (finishes job events ≡ 1) }
{}

/// Two such runs of one game to one frame, under any two settings, agree in what they emit and keep, and but for their
/// Holds in their length.
pub fn stuck_runs_agree()
    ensures output { (g : Game) (frames bands workers small large slots workers2 small2 large2 slots2 : ℕ) (one other : List Event) → let s : Setup = setup g frames bands workers small large slots in let t : Setup = setup g frames bands workers2 small2 large2 slots2 in IsStuckRun s one → IsStuckRun t other → (values (played g) s one).output ≡ (values (played g) t other).output }
    ensures world { (g : Game) (frames bands workers small large slots workers2 small2 large2 slots2 : ℕ) (one other : List Event) → let s : Setup = setup g frames bands workers small large slots in let t : Setup = setup g frames bands workers2 small2 large2 slots2 in IsStuckRun s one → IsStuckRun t other → (values (played g) s one).kept.world ≡ (values (played g) t other).kept.world }
    ensures memories { (g : Game) (frames bands workers small large slots workers2 small2 large2 slots2 : ℕ) (one other : List Event) (agent : ℕ) → let s : Setup = setup g frames bands workers small large slots in let t : Setup = setup g frames bands workers2 small2 large2 slots2 in IsStuckRun s one → IsStuckRun t other → agent < length g.trees → (values (played g) s one).kept.memories agent ≡ (values (played g) t other).kept.memories agent }
    ensures length { (g : Game) (frames bands workers small large slots workers2 small2 large2 slots2 : ℕ) (one other : List Event) → IsStuckRun (setup g frames bands workers small large slots) one → IsStuckRun (setup g frames bands workers2 small2 large2 slots2) other → length one + 2 * holds other ≡ length other + 2 * holds one }
{}

/// Within the limits a run of a game fits 28 bits.
pub fn lengths_of_games_are_small()
    ensures { (g : Game) (frames bands workers small large slots : ℕ) → frames ≤ 9999 → length g.trees ≤ 26 → bands ≤ 16 → ((agent : ℕ) → size (tree_of g agent) ≤ 255) → most (setup g frames bands workers small large slots) < 2 ^ 28 }
{}
