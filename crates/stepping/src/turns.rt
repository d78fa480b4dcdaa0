// Changes by which the signals of a frame, and those of the next, become given ones.
ghost use Rattle.std.specs.Prelude.{◌≡◌, ◌<◌, ◌+◌, ◌^◌, ◌++◌, ◌∷◌, [], ℕ, if◌then◌else◌, false, length, replicate, take, OnOk, IfOk, slice_set};
ghost use Rattle.grid_world.specs.Open.{is_on};
ghost use Rattle.game_rules.specs.Game.{signals};
ghost use Rattle.stepping.specs.Played.{AllBy, AreInOrder, IsTurnedBy};

use game_rules::Change;
use grid_world::{Signal, Signals};
use std::alloc::{AllocError, Global};

// A signal is on or off in a frame, that of the last change or a later one.
fn turn(
    changes: &mut Vec<Change>,
    now: &mut Signals,
    frame: u32,
    signal: Signal,
    on: bool,
) -> Result<(), AllocError>
    requires some { 0 < frame }
    requires small { signal < 26 }
    requires now { IsTurnedBy frame changes.old.items now.old }
    ensures now { OnOk result (IsTurnedBy frame changes.new.items now.new) }
    ensures signal { OnOk result (take (signal + 1) now.new ≡ take signal now.old ++ on ∷ []) }
    ensures before { OnOk result ((k : ℕ) → k < frame → signals changes.new.items k ≡ signals changes.old.items k) }
{
    if now.is_on(signal) == on {
        return Ok(());
    }
    changes.push(Change { frame, signal, on })?;
    now.set(signal, on);
    Ok(())
}

pub(crate) fn turn_all(
    changes: &mut Vec<Change>,
    now: &mut Signals,
    frame: u32,
    wanted: Signals,
) -> Result<(), AllocError>
    requires some { 0 < frame }
    requires now { IsTurnedBy frame changes.old.items now.old }
    ensures now { OnOk result (IsTurnedBy frame changes.new.items wanted) }
    ensures before { OnOk result ((k : ℕ) → k < frame → signals changes.new.items k ≡ signals changes.old.items k) }
{
    'signals: for number in 0..26u32 {
        let Some(signal) = Signal::new(number) else {
            unreachable!()
        };
        turn(changes, now, frame, signal, wanted.is_on(signal))?;
    }
    Ok(())
}
