ghost use Rattle.std.specs.Prelude.{◌≡◌, None, OnOk, OnErr};
ghost use Rattle.board_model.specs.Lists.{drop_first};
ghost use Rattle.job_core.specs.Core.{Thinks, Shown};
ghost use Rattle.board_model.specs.Board.{has_key, first_row, raise, wait};
ghost use Rattle.counters.specs.Keys.{counter_of};

use super::out_of_memory::OutOfMemory;
use counters::{BoardCounters, CounterKey};
use job_queues::Fiber;

// A counter at 0 has nothing to count, and is not kept.
pub(crate) fn raise(
    counters: &mut BoardCounters,
    key: CounterKey,
    number: u32,
) -> Result<(), OutOfMemory>
    requires { first_row (counter_of key) counters.old ≡ None }
    ensures ok { OnOk result (counters.new ≡ raise (counter_of key) number counters.old) }
    ensures unchanged { OnErr result (counters.new ≡ counters.old) }
{
    if number == 0 {
        return Ok(());
    }
    if counters.start(key, number).is_err() {
        return Err(OutOfMemory);
    }
    Ok(())
}

// Starts a counter for which a fiber waits at once. One at 0 is not kept, and the fiber does not wait.
#[inline(always)]
pub(crate) fn raise_awaited(
    counters: &mut BoardCounters,
    key: CounterKey,
    number: u32,
    fiber: Fiber,
) -> Result<(), OutOfMemory>
    requires { first_row (counter_of key) counters.old ≡ None }
    ensures ok { OnOk result (counters.new ≡ wait (counter_of key) fiber (raise (counter_of key) number counters.old)) }
    ensures unchanged { OnErr result (counters.new ≡ counters.old) }
{
    if number == 0 {
        return Ok(());
    }
    if counters.start_awaited(key, number, fiber).is_err() {
        return Err(OutOfMemory);
    }
    Ok(())
}

// The counters of a frame that is under way from now on. A fiber waits for its thinks.
pub(crate) fn raise_frame(
    counters: &mut BoardCounters,
    frame: u32,
    thinks: u32,
    fiber: Fiber,
) -> Result<(), OutOfMemory>
    requires thinks { first_row (Thinks frame) counters.old ≡ None }
    requires shown { first_row (Shown frame) counters.old ≡ None }
    ensures ok { OnOk result (counters.new ≡ wait (Thinks frame) fiber (raise (Thinks frame) thinks (raise (Shown frame) 1 counters.old))) }
    ensures unchanged { OnErr result (counters.new ≡ counters.old) }
{
    raise(counters, CounterKey::Shown { frame }, 1)?;
    let Ok(()) = raise_awaited(counters, CounterKey::Thinks { frame }, thinks, fiber) else {
        counters.cancel(CounterKey::Shown { frame });
        return Err(OutOfMemory);
    };
    Ok(())
}

// Takes the counters of a frame out again.
pub(crate) fn without_frame(counters: &mut BoardCounters, frame: u32)
    ensures { counters.new ≡ drop_first (has_key (Shown frame)) (drop_first (has_key (Thinks frame)) counters.old) }
{
    counters.cancel(CounterKey::Thinks { frame });
    counters.cancel(CounterKey::Shown { frame });
}
