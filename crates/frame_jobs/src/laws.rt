// Laws over what a board is seen as.
ghost use Rattle.std.specs.Prelude.{◌≡◌, ◌≤◌, ◌+◌, ◌*◌, ◌-◌, ℕ, false, length};
ghost use Rattle.job_core.specs.Core.{IsComplete};
ghost use Rattle.job_core.specs.Values.{Game, texts, values};
ghost use Rattle.job_scheduler.specs.Logged.{setup_of, reached};
ghost use Rattle.frame_jobs.specs.Boards.{FrameBoard, IsOpen};
ghost use Rattle.frame_jobs.specs.Going.{IsGoing};

/// Until all frames are shown something can be done but a stop.
pub fn frame_jobs_never_stick()
    ensures { (b : FrameBoard) (k : IsOpen b) → (reached b.jobs k.questions).stopped ≡ false → ((reached b.jobs k.questions).emitted ≡ b.jobs.numbers.frames → ⊥) → IsGoing b k }
{}

/// What the events so far make of a game is the text of its first frames, whatever the schedule; and they are no more than this.
pub fn frame_jobs_play_the_game<World, Memory, Signals, Way, Thought>()
    ensures frames { (g : Game World Memory Signals Way Thought) (b : FrameBoard) (k : IsOpen b) → (values g (setup_of b.jobs k.questions) b.jobs.events).output ≡ texts g b.jobs.agents k.questions (reached b.jobs k.questions).emitted }
    ensures bounded { (b : FrameBoard) (k : IsOpen b) → (reached b.jobs k.questions).stopped ≡ false
        → length b.jobs.events ≤ b.jobs.numbers.frames * (5 + 2 * b.jobs.bands + b.jobs.agents * (2 + 4 * b.most_questions)) + 2 * (b.jobs.numbers.frames - b.jobs.numbers.slots) }
{}
