// Laws over the definitions alone.
ghost use Rattle.std.specs.Prelude.{◌≡◌, ◌≢◌, ℕ, List, All};
ghost use Rattle.page_text.specs.Escapes.{escaped};

/// Nothing that is put into a page has a `<`, so none of it ends its element.
pub fn nothing_ends_early()
    ensures { (text : List ℕ) → All (λ c. c ≢ 60) (escaped text) }
{}

/// A text that has no `<` is put in as it is.
pub fn texts_without_marks_stay()
    ensures { (text : List ℕ) → All (λ c. c ≢ 60) text → escaped text ≡ text }
{}
