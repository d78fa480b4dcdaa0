// Laws over the definitions alone.
ghost use Rattle.std.specs.Prelude.{◌≡◌, ℕ, List, Some, length};
ghost use Rattle.page_text.specs.Films.{film_of, frames_in};
ghost use Rattle.page_text.specs.Frames.{frames_to, size_of, texts_from};
ghost use Rattle.game_rules.specs.Game.{Game};
ghost use Rattle.game_rules.specs.Text.{texts};
ghost use Rattle.page_text.specs.Escapes.{escaped};
ghost use Rattle.level_text.specs.Games.{spelled_game};
ghost use Rattle.job_core.specs.declared.names.Event.{Event};
ghost use Rattle.log_text.specs.declared.log_fault.LogFault.{LogFault};
ghost use Rattle.trace_text.specs.declared.board.Board.{Board};
ghost use Rattle.view_commands.specs.Doing.{IsLogOn, IsFaultOfBoth};

/// The frames in a page, read as they stand there, are the text of the game's frames.
pub fn pages_unroll()
    ensures { (level script : List ℕ) (g : Game) (n : ℕ) → spelled_game level script ≡ Some g
        → texts_from 1 (frames_in (size_of g) (length g.trees) n (escaped (film_of (frames_to g n)))) ≡ texts g n }
{}

/// Bytes are the log of a play or of jobs alone in one way, and then have no fault.
pub fn logs_are_read_in_one_way()
    ensures one { (log : List ℕ) (board other : Board) (events further : List Event) → IsLogOn log board events → IsLogOn log other further → (board ≡ other) × (events ≡ further) }
    ensures either { (log : List ℕ) (board : Board) (events : List Event) (fault : LogFault) → IsLogOn log board events → IsFaultOfBoth log fault → ⊥ }
{}
