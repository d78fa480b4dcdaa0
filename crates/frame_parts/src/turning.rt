ghost use Rattle.std.specs.Prelude.{◌≡◌, IfOk, OnOk, OnErr, length};
ghost use Rattle.grid_world.specs.Intents.{apply_all};

use grid_world::{Intent, ResolveFault, Signals, World, resolve};
use std::alloc::{AllocError, Global};

/// The world after an intent of each agent.
pub fn resolved(
    alloc: Global,
    world: &World,
    signals: Signals,
    intents: &[Intent],
) -> Result<World, AllocError>
    requires { length intents.now ≡ length world.now.agents }
    ensures { IfOk result (λ after. after ≡ apply_all world.now signals 0 intents.now) }
{
    match resolve(alloc, world, signals, intents) {
        Ok(after) => Ok(after),
        Err(ResolveFault::OutOfMemory) => Err(AllocError),
        Err(ResolveFault::Count) => unreachable!(),
    }
}

/// As `resolved`, in place: a world that no other reads. At Err it is as it was.
pub fn resolve_in_place(
    alloc: Global,
    world: &mut World,
    signals: Signals,
    intents: &[Intent],
) -> Result<(), AllocError>
    requires { length intents.now ≡ length world.old.agents }
    ensures ok { OnOk result (world.new ≡ apply_all world.old signals 0 intents.now) }
    ensures err { OnErr result (world.new ≡ world.old) }
{
    match world.resolve(alloc, signals, intents) {
        Ok(()) => Ok(()),
        Err(ResolveFault::OutOfMemory) => Err(AllocError),
        Err(ResolveFault::Count) => unreachable!(),
    }
}
