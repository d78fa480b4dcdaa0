// Laws over the definitions alone.
ghost use Rattle.std.specs.Prelude.{◌≡◌, ℕ, length};
ghost use Rattle.game_rules.specs.Game.{Game};
ghost use Rattle.game_rules.specs.Text.{texts};
ghost use Rattle.page_text.specs.Films.{HasNoMark, film_of, frames_in};
ghost use Rattle.page_text.specs.Frames.{IsPlayable, frames_to, size_of, texts_from};

/// The film of a game's first frames is read as these very frames, and their text is that of the game.
pub fn films_unroll()
    ensures { (g : Game) (n : ℕ) → IsPlayable g
        → texts_from 1 (frames_in (size_of g) (length g.trees) n (film_of (frames_to g n))) ≡ texts g n }
{}

/// No byte of it is a `<`.
pub fn films_have_no_mark()
    ensures { (g : Game) (n : ℕ) → IsPlayable g → HasNoMark (film_of (frames_to g n)) }
{}
