// What steps come to, whatever led to them.
ghost use Rattle.std.specs.Prelude.{◌≡◌, ◌<◌, ℕ, ◌++◌, List, Bool};
ghost use Rattle.game_rules.specs.declared.change.Change.{Change};
ghost use Rattle.game_rules.specs.Game.{Game};
ghost use Rattle.game_rules.specs.Play.{play};
ghost use Rattle.game_rules.specs.Text.{frame_text, texts};
ghost use Rattle.stepping.specs.Played.{Played, opened, changes_so_far, IsOnBy, IsPlayed, IsStepped, IsByScript, scripted_game, scripted_signals, state_of, text_of};
ghost use Rattle.stepping.specs.StateText.{AreAlike, AreOfOneLevel, IsState, state_text};

/// Games in the same state that are stepped with the same signals are in the same state again, and show the same frame. So
/// whoever compares states once, as two machines in lockstep, knows all that comes of the same signals.
pub fn same_states_step_alike()
    ensures { (on : List Bool) (p q next_p next_q : Played) → state_of p ≡ state_of q → IsStepped on p next_p → IsStepped on q next_q
        → (state_of next_p ≡ state_of next_q) × (text_of next_p ≡ text_of next_q) }
{}

/// A game that was opened before its first frame is where its game is played to, whatever is handed in, and its text is that of
/// the frame.
pub fn opened_games_are_played()
    ensures begins { (g : Game) (script : List Change) → IsPlayed (opened g script) }
    ensures stays { (p next : Played) → IsPlayed p → IsOnBy 0 p next → IsPlayed next }
    ensures goes_on { (on : List Bool) (p next : Played) → IsPlayed p → IsStepped on p next → IsPlayed next }
    ensures text { (p : Played) → IsPlayed p → 0 < p.frame → text_of p ≡ frame_text p.game p.frame }
{}

/// A step puts its frame's text behind those of the frames before, so the texts since a game was opened, joined, are those
/// of the game's first frames.
pub fn texts_grow_by_steps()
    ensures { (on : List Bool) (p next : Played) → IsStepped on p next
        → texts next.game next.frame ≡ texts p.game p.frame ++ frame_text next.game next.frame }
{}

/// A game each of whose steps took the script's signals is where the script's game is, and its texts are those of that game.
pub fn scripted_steps_play_the_script()
    ensures begins { (g : Game) (script : List Change) → IsByScript (opened g script) }
    ensures goes_on { (p next : Played) → IsByScript p → IsStepped (scripted_signals p) p next → IsByScript next }
    ensures position { (p : Played) → IsByScript p → play p.game p.frame ≡ play (scripted_game p) p.frame }
    ensures texts { (p : Played) → IsByScript p → texts p.game p.frame ≡ texts (scripted_game p) p.frame }
{}

/// A game whose script is what was handed in so far has the same signals in each frame so far. So it is where this game is,
/// with the same texts: whoever keeps the level and these changes can play the frames again.
#[tactic(auto, using(crate::proofs::SoFar::by_changes_so_far))]
pub fn changes_so_far_play_alike()
    ensures { (p : Played) → IsByScript (record p { script = changes_so_far p }) }
{}

/// Games of one level whose states have the same text are in the same state and show the same frame: the text of a state tells
/// all of it but the level.
pub fn texts_tell_states()
    ensures { (p q : Played) → IsState p → IsState q → AreOfOneLevel p.game q.game → state_text p ≡ state_text q → AreAlike p q }
{}
