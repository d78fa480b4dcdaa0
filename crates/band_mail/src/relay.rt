//! The rule of a queue, and what its passes may do and know.
use crossbeam_queue::protocol::{Join, Lesson, Outcome, Protocol, Split};
use std::collections::LinkedList;

/// What a pass may do, what it has put and what it has taken. No value of it is made.
pub struct PassLog<T> {
    pub puts: bool,
    pub takes: bool,
    pub put: LinkedList<T>,
    pub taken: LinkedList<T>,
}

/// What was put is what was taken, followed by what the queue holds.
pub struct Relay;

impl<T> Protocol<T, PassLog<T>> for Relay {
    ghost use Rattle.std.specs.Prelude.{true, []};
    ghost use Rattle.band_mail.specs.Relay.{log, Relayed};

    ghost holds = { Relayed };

    ghost first = { log true true [] [] };
}

/// The pass that may do both is cut into one that puts and one that takes, and the one that takes is joined with the one that puts.
pub struct Roles;

impl<T> Split<PassLog<T>> for Roles {
    ghost use Rattle.std.specs.Prelude.{true, false, []};
    ghost use Rattle.band_mail.specs.Relay.{log};

    ghost left = { λ v. log true false v.put [] };

    ghost right = { λ v. log false true [] v.taken };
}

impl<T> Join<PassLog<T>> for Roles {
    ghost use Rattle.std.specs.Prelude.{true, false, []};
    ghost use Rattle.band_mail.specs.Relay.{log};

    ghost both = { λ v w. log true true w.put v.taken };

    ghost spent = { log false false [] [] };
}

/// A put, which adds to what the pass has put.
pub struct Puts;

impl<T> Outcome<T, PassLog<T>> for Puts {
    ghost use Rattle.std.specs.Prelude.{◌≡◌, [], ◌∷◌, ◌++◌};
    ghost use Rattle.band_mail.specs.Relay.{log};

    ghost then = { λ v x w. w ≡ log v.puts v.takes (v.put ++ x ∷ []) v.taken };
}

impl<T> Lesson<T, PassLog<T>> for Puts {
    ghost use Rattle.std.specs.Prelude.{⊤};

    ghost fact = { λ v items. ⊤ };
}

/// A take, which adds to what the pass has taken.
pub struct Takes;

impl<T> Outcome<T, PassLog<T>> for Takes {
    ghost use Rattle.std.specs.Prelude.{◌≡◌, [], ◌∷◌, ◌++◌};
    ghost use Rattle.band_mail.specs.Relay.{log};

    ghost then = { λ v x w. w ≡ log v.puts v.takes v.put (v.taken ++ x ∷ []) };
}

impl<T> Lesson<T, PassLog<T>> for Takes {
    ghost use Rattle.std.specs.Prelude.{⊤};

    ghost fact = { λ v items. ⊤ };
}

/// A take by the joined pass, which knows what the queue holds.
pub struct Drains;

impl<T> Outcome<T, PassLog<T>> for Drains {
    ghost use Rattle.std.specs.Prelude.{◌≡◌, [], ◌∷◌, ◌++◌};
    ghost use Rattle.band_mail.specs.Relay.{log};

    ghost then = { λ v x w. w ≡ log v.puts v.takes v.put (v.taken ++ x ∷ []) };
}

impl<T> Lesson<T, PassLog<T>> for Drains {
    ghost use Rattle.std.specs.Prelude.{◌≡◌, ◌++◌};

    ghost fact = { λ v items. v.put ≡ v.taken ++ items };
}
