// Many frames of a game by one call.
ghost use Rattle.std.specs.Prelude.{◌≡◌, ◌≢◌, ◌+◌, ◌^◌, None, length, IsSomeAnd};
ghost use Rattle.btworld_c.specs.Statuses.{done, closed, last_frame, IsStepStatus};
ghost use Rattle.btworld_c.specs.Frames.{AreSteps, IsCutShort, IsRun, IsRunCutShort};

use crate::game::{Game, put, take};
use crate::games::step_held;
use crate::status::{CLOSED, OK};
use std::alloc::Global;
use stepping::Stepping;

fn run_held(alloc: Global, held: &mut Stepping, signals: &[u32], stepped: &mut usize) -> u32
    ensures ok { result ≡ done → AreSteps signals.now held.old held.new }
    ensures all { result ≡ done → stepped.new ≡ length signals.now }
    ensures refused { result ≢ done → IsCutShort stepped.new signals.now held.old held.new }
    ensures held { result ≢ closed }
    ensures last { result ≡ last_frame → held.new.frame + 1 ≡ 2 ^ 32 }
    ensures status { IsStepStatus result }
{
    'frames: for number in 0..signals.len() {
        let status = step_held(alloc, held, signals[number]);
        if status != OK {
            *stepped = number;
            return status;
        }
    }
    *stepped = signals.len();
    OK
}

/// A frame for each of these signals, in their order, as `btworld_step` steps it, and how many frames were stepped. It refuses at
/// the first frame that `btworld_step` refuses, and as that does: those before it were stepped.
#[unsafe(no_mangle)]
pub extern "C" fn btworld_run(
    alloc: Global,
    game: &mut Game,
    signals: &[u32],
    stepped: &mut usize,
) -> u32
    ensures ok { result ≡ done → IsRun signals.now game.old.handle.value game.new.handle.value }
    ensures all { result ≡ done → stepped.new ≡ length signals.now }
    ensures refused { result ≢ done → IsRunCutShort stepped.new signals.now game.old.handle.value game.new.handle.value }
    ensures closed { game.old.handle.value ≡ None → result ≡ closed }
    ensures held { result ≡ closed → game.old.handle.value ≡ None }
    ensures last { result ≡ last_frame → IsSomeAnd game.new.handle.value (λ p. p.frame + 1 ≡ 2 ^ 32) }
    ensures status { IsStepStatus result }
{
    let Some(held) = take(alloc, game) else {
        *stepped = 0;
        return CLOSED;
    };
    let mut held = held;
    let status = run_held(alloc, &mut held, signals, stepped);
    put(game, held);
    status
}
