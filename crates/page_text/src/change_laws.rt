// Laws over the definitions alone.
ghost use Rattle.std.specs.Prelude.{◌≡◌, ◌≢◌, ◌≤◌, ℕ, Bool, List, [], ◌∷◌, ◌++◌, length, All, None};
ghost use Rattle.page_text.specs.declared.byte_change.ByteChange.{ByteChange};
ghost use Rattle.page_text.specs.Changes.{changes_from, changes_text, changed};
ghost use Rattle.page_text.specs.Films.{Frame, IsFrameOf, IsWithoutMark, HasNoMark, film_of, frames_in};
ghost use Rattle.page_text.specs.Reading.{read, IsReadable};

/// The changes, put into the old text, give the new one.
pub fn changes_give_the_new_text()
    ensures { (old new : List ℕ) → length old ≡ length new → changed old (changes_from 0 old new) ≡ new }
{}

/// A line of changes is read back, with what is behind it.
pub fn lines_are_read_back()
    ensures { (changes : List ByteChange) (rest : List ℕ) → All IsReadable changes → read None (changes_text changes ++ 10 ∷ rest) ≡ (changes, rest) }
{}

/// A film is read as the very frames that it is of, by their number, that of their agents and how many bytes their rows have.
/// So no two lists of such frames have the same film.
pub fn films_are_read_back()
    ensures { (feeds : List Bool) (agents : ℕ) (frames : List Frame) → feeds ≢ [] → length feeds ≤ 16512
        → All (IsFrameOf feeds agents) frames
        → frames_in (length feeds) agents (length frames) (film_of frames) ≡ frames }
{}

/// No byte of a film is a `<` where none of the frames' is.
pub fn films_have_no_mark()
    ensures { (feeds : List Bool) (agents : ℕ) (frames : List Frame) → length feeds ≤ 16512
        → All (IsFrameOf feeds agents) frames → All IsWithoutMark frames → HasNoMark (film_of frames) }
{}
