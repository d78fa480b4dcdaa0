// Many games, side by side, by one call.
ghost use Rattle.std.specs.Prelude.{◌≡◌, ◌≢◌, ◌⊎◌, ◌<◌, ◌+◌, ◌^◌, ℕ, None, length, slice_index, IsSomeAnd};
ghost use Rattle.btworld_c.specs.Statuses.{done, closed, short, last_frame, IsStepStatus};
ghost use Rattle.btworld_c.specs.Games.{IsSteppedIn, IsNotStepped};
ghost use Rattle.btworld_c.specs.Many.{held_at};

use crate::game::Game;
use crate::games::btworld_step;
use crate::status::{OK, SHORT};
use std::alloc::Global;

// The next frame of one of the games.
fn step_at(alloc: Global, games: &mut [Game], number: usize, mask: u32) -> u32
    requires { number < length games.old }
    ensures ok { result ≡ done → IsSteppedIn mask (held_at games.old number) (held_at games.new number) }
    ensures refused { result ≢ done → IsNotStepped mask (held_at games.old number) (held_at games.new number) }
    ensures others { (k : ℕ) → k ≢ number → held_at games.new k ≡ held_at games.old k }
    ensures held { result ≡ closed → held_at games.old number ≡ None }
    ensures last { result ≡ last_frame → IsSomeAnd (held_at games.old number) (λ p. p.frame + 1 ≡ 2 ^ 32) }
    ensures status { IsStepStatus result }
{
    btworld_step(alloc, &mut games[number], mask)
}

/// The next frame of each game, the first with the first of the signals, as `btworld_step` steps it, and how many games were
/// stepped. Where the signals are fewer than the games none is, and the status is 5. It refuses at the first game that `btworld_step`
/// refuses, and as that does: those before it were stepped, and those behind it are as they were.
#[unsafe(no_mangle)]
pub extern "C" fn btworld_step_all(
    alloc: Global,
    games: &mut [Game],
    signals: &[u32],
    stepped: &mut usize,
) -> u32
    ensures all { result ≡ done → stepped.new ≡ length games.old }
    ensures before { (k : ℕ) → k < stepped.new → IsSteppedIn (slice_index signals.now k) (held_at games.old k) (held_at games.new k) }
    ensures refused { result ≢ done → result ≢ short
        → IsNotStepped (slice_index signals.now stepped.new) (held_at games.old stepped.new) (held_at games.new stepped.new) }
    ensures within { result ≢ done → result ≢ short → stepped.new < length games.old }
    ensures behind { (k : ℕ) → stepped.new < k → held_at games.new k ≡ held_at games.old k }
    ensures few { length signals.now < length games.old → result ≡ short }
    ensures short { result ≡ short → (length signals.now < length games.old) × (games.new ≡ games.old) × (stepped.new ≡ 0) }
    ensures held { result ≡ closed → held_at games.old stepped.new ≡ None }
    ensures last { result ≡ last_frame → IsSomeAnd (held_at games.old stepped.new) (λ p. p.frame + 1 ≡ 2 ^ 32) }
    ensures status { (result ≡ short) ⊎ IsStepStatus result }
{
    if signals.len() < games.len() {
        *stepped = 0;
        return SHORT;
    }
    'games: for number in 0..games.len() {
        let status = step_at(alloc, games, number, signals[number]);
        if status != OK {
            *stepped = number;
            return status;
        }
    }
    *stepped = games.len();
    OK
}
