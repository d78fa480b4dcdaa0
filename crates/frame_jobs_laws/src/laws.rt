// Laws over the definitions alone.
ghost use Rattle.std.specs.Prelude.{◌≡◌, ◌<◌, ◌≤◌, ◌+◌, ◌*◌, ◌-◌, ◌++◌, ℕ, Bool, List, length};
ghost use Rattle.job_core.specs.declared.names.Event.{Event};
ghost use Rattle.job_core.specs.declared.names.JobName.TheVariants.{Think};
ghost use Rattle.job_core.specs.Core.{Setup, IsLegalList, IsRun, IsComplete, state};
ghost use Rattle.job_core.specs.Values.{Game, play, texts, first_values, values};
ghost use Rattle.frame_jobs_laws.specs.Asked.{with_questions, with_number, HasAsked};
ghost use Rattle.frame_jobs_laws.specs.OwnGames.{AsksItsOwn};
ghost use Rattle.frame_jobs_laws.specs.Seasons.{later, from};
ghost use Rattle.frame_jobs_laws.specs.Follows.{FollowsFrom};

/// How many questions a Think asks is open until it ends: what is legal stays so for any number that it has not passed yet.
pub fn questions_are_open()
    ensures { (s : Setup) (events : List Event) (f a n : ℕ) → 0 < s.slots → IsLegalList s events → HasAsked n ((state s events).phase (Think f a)) → IsLegalList (with_questions s (with_number s.questions f a n)) events }
{}

/// Two complete runs of one game emit the same, under any two settings, where each asked what the game asks.
pub fn own_games_agree<World, Memory, Signals, Way, Thought>()
    ensures { (g : Game World Memory Signals Way Thought) (asks : Signals → World → ℕ → Memory → List Way → Bool) (s : Setup) (q r : ℕ → ℕ → ℕ) (workers small large slots : ℕ) (one other : List Event)
        → AsksItsOwn g asks s.agents s.frames q → AsksItsOwn g asks s.agents s.frames r
        → IsComplete (with_questions s q) one → IsComplete (record s { questions = r; workers = workers; small = small; large = large; slots = slots }) other
        → (values g (with_questions s q) one).output ≡ (values g (record s { questions = r; workers = workers; small = small; large = large; slots = slots }) other).output }
{}

/// A run in which no Think asks more than so many questions is no longer than this.
pub fn own_runs_are_bounded()
    ensures { (s : Setup) (events : List Event) (most : ℕ) → ((f a : ℕ) → s.questions f a ≤ most) → IsRun s events → length events ≤ s.frames * (5 + 2 * s.bands + s.agents * (2 + 4 * most)) + 2 * (s.frames - s.slots) }
{}

/// A complete run in which each Think asks where its game's tick does, by what lies in its frame's slot, asked what the game asks.
pub fn followed_games_ask_their_own<World, Memory, Signals, Way, Thought>()
    ensures { (g : Game World Memory Signals Way Thought) (asks : Signals → World → ℕ → Memory → List Way → Bool) (s : Setup) (events : List Event)
        → IsComplete s events → FollowsFrom g asks s (first_values g) events → AsksItsOwn g asks s.agents s.frames s.questions }
{}

/// So two complete runs of one game emit the same, under any two settings, where each Think asks where its game's tick does.
pub fn own_runs_agree<World, Memory, Signals, Way, Thought>()
    ensures { (g : Game World Memory Signals Way Thought) (asks : Signals → World → ℕ → Memory → List Way → Bool) (s : Setup) (q r : ℕ → ℕ → ℕ) (workers small large slots : ℕ) (one other : List Event)
        → IsComplete (with_questions s q) one → IsComplete (record s { questions = r; workers = workers; small = small; large = large; slots = slots }) other
        → FollowsFrom g asks (with_questions s q) (first_values g) one → FollowsFrom g asks (record s { questions = r; workers = workers; small = small; large = large; slots = slots }) (first_values g) other
        → (values g (with_questions s q) one).output ≡ (values g (record s { questions = r; workers = workers; small = small; large = large; slots = slots }) other).output }
{}

/// The first frames of a game, and then those of the game that begins where they end, are the game's.
pub fn seasons_are_the_game<World, Memory, Signals, Way, Thought>()
    ensures texts { (g : Game World Memory Signals Way Thought) (agents : ℕ) (q : ℕ → ℕ → ℕ) (n m : ℕ) → texts g agents q (n + m) ≡ texts g agents q n ++ texts (later g agents q n) agents (from n q) m }
    ensures world { (g : Game World Memory Signals Way Thought) (agents : ℕ) (q : ℕ → ℕ → ℕ) (n m : ℕ) → (play g agents q (n + m)).world ≡ (play (later g agents q n) agents (from n q) m).world }
    ensures memories { (g : Game World Memory Signals Way Thought) (agents : ℕ) (q : ℕ → ℕ → ℕ) (n m a : ℕ) → (play g agents q (n + m)).memories a ≡ (play (later g agents q n) agents (from n q) m).memories a }
{}
