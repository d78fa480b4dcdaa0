use std::marker::Model;

/// A fiber of the pool, by its number from 0.
#[derive(Clone, Copy, Debug, PartialEq, Eq)]
pub struct Fiber(pub u32);

impl Model for Fiber {
    ghost use Rattle.std.specs.Prelude.{ℕ};

    ghost Value = { ℕ };

    ghost view = { λ f. f.0 };

    ghost inverse = { λ n. record { 0 = n } };
}
