// Laws over the definitions alone.
ghost use Rattle.std.specs.Prelude.{◌≡◌, ◌≤◌, ◌+◌, ◌++◌, ℕ, List, length};
ghost use Rattle.commands.specs.Journals.{journal_head, journal_of, OfLog};
ghost use Rattle.game_rules.specs.Game.{Game};
ghost use Rattle.job_core.specs.declared.names.Event.{Event};
ghost use Rattle.job_core.specs.Core.{IsLegalList};
ghost use Rattle.job_scheduler.specs.Numbers.{Numbers};
ghost use Rattle.log_text.specs.Headings.{heading_text};
ghost use Rattle.log_text.specs.Readings.{IsLog};
ghost use Rattle.log_text.specs.Text.{line, log_text_of};
ghost use Rattle.replay_log.specs.Completing.{whole_lines, IsCutTo};
ghost use Rattle.task_board.specs.Setups.{setup_for};

/// The journal of a legal list, cut anywhere behind both heads, holds for its game a log whose whole lines are that of a first
/// part of the list, which is legal too. So a killed run's journal can be completed wherever it breaks off.
pub fn cut_journals_complete()
    ensures { (g : Game) (settings : Numbers) (events : List Event) (front rest : List ℕ) (l : IsLog (log_text_of settings events) settings events)
        → IsLegalList (setup_for g settings) events → journal_of g settings events ≡ front ++ rest
        → length (journal_head g) + length (line (heading_text l.heading)) ≤ length front
        → OfLog front (λ log g. IsCutTo (setup_for g settings) (whole_lines log) settings events) g }
{}
