ghost use Rattle.std.specs.Prelude.{◌≡◌, true};

use std::marker::Model;
use std::time::Duration;

// Milliseconds.
const SHORTEST: u64 = 1;

const LONGEST: u64 = 1_000;

/// How long a thread sleeps at most before it looks for what nobody called it for: a millisecond at first, and twice as
/// long each time that it was not called, up to a second. Contracts see it as its milliseconds.
#[derive(Drop)]
pub struct Backoff {
    millis: u64,
}

impl Model for Backoff {
    ghost use Rattle.std.specs.Prelude.{◌≤◌, ℕ};

    ghost Value = { ℕ };

    ghost view = { λ b. b.millis };

    ghost invariant = { λ b. (1 ≤ b.millis) × (b.millis ≤ 1000) };
}

impl Backoff {
    /// The shortest sleep.
    pub fn new() -> Backoff
        ensures { result ≡ 1 }
    {
        Backoff { millis: SHORTEST }
    }

    /// How long it is.
    pub fn length(&self) -> Duration {
        Duration::from_millis(self.millis)
    }

    /// Takes into account whether the thread was called.
    pub fn learn(&mut self, is_called: bool)
        ensures { is_called ≡ true → self.new ≡ 1 }
    {
        self.millis = if is_called {
            SHORTEST
        } else {
            self.millis.saturating_mul(2).min(LONGEST)
        };
    }
}
