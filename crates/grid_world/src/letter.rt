ghost use Rattle.std.specs.Prelude.{◌≡◌, ◌<◌, ◌≤◌, ℕ, IfSome, IfNone, OnSome};

use std::marker::Model;

/// An agent's letter, numbered from 0 for `A`: the agent with that number, whether it is on the map or not.
#[derive(Clone, Copy, Debug, PartialEq, Eq, Drop)]
pub struct Letter {
    number: u32,
}

impl Model for Letter {
    ghost Value = { ℕ };

    ghost view = { λ l. l.number };

    ghost invariant = { λ l. l.number < 26 };

    ghost inverse = { λ n. record { number = n } };
}

impl Letter {
    /// The letter of that number, from 0 to 25.
    pub fn new(number: u32) -> Option<Letter>
        ensures some { IfSome result (λ l. l ≡ number) }
        ensures small { OnSome result (number < 26) }
        ensures none { IfNone result (26 ≤ number) }
    {
        if number < 26 {
            Some(Letter { number })
        } else {
            None
        }
    }

    /// Its number, from 0 for `A` to 25 for `Z`.
    pub fn number(&self) -> u32
        ensures value { result ≡ self.now }
        ensures small { result < 26 }
    {
        self.number
    }
}
