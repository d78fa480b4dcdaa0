ghost use Rattle.std.specs.Prelude.{◌≡◌};
ghost use Rattle.board_model.specs.Board.{same_counter};
ghost use Rattle.counters.specs.Keys.{counter_of};

/// What a counter counts: frames from 1, agents and questions from 0.
#[derive(Clone, Copy, Debug, PartialEq, Eq)]
pub enum CounterKey {
    /// The agents of a frame that are still to be thought for.
    Thinks {
        frame: u32,
    },
    /// The one answer that a question waits for.
    Way {
        frame: u32,
        agent: u32,
        question: u32,
    },
    /// The bands of a frame that are still to be drawn.
    Draws {
        frame: u32,
    },
    /// That a frame is still to be emitted.
    Shown {
        frame: u32,
    },
}

pub(crate) fn is_same_key(one: CounterKey, other: CounterKey) -> bool
    ensures { result ≡ same_counter (counter_of one) (counter_of other) }
{
    one == other
}
