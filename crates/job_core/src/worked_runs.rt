// Worked runs: what the definitions say of them, to the last fiber.
ghost use Rattle.std.specs.Prelude.{◌≡◌, ◌++◌, length};
ghost use Rattle.job_core.specs.declared.names.JobName.TheVariants.{Logic, Think, Path, Draw};
ghost use Rattle.job_core.specs.declared.names.Event.TheVariants.{Start};
ghost use Rattle.job_core.specs.declared.names.Size.TheVariants.{Small, Large};
ghost use Rattle.job_core.specs.Core.{IsLegal, IsComplete, free, state};
ghost use Rattle.job_core.specs.Amounts.{most, least, holds};
ghost use Rattle.job_core.specs.Worked.{lone, one_slot, two_slots, two_agents, no_agents, two_workers, one_frame, held_once, second_begun, second_ended, spread_once, asked_once, one_drawn, shared};

/// One frame of one agent that asks once takes 13 events.
pub fn one_frame_is_complete()
    ensures complete { IsComplete lone one_frame }
    ensures length { length one_frame ≡ 13 }
    ensures most { most lone ≡ 13 }
{}

/// With one slot the second Logic can start before the first frame is shown, and holds; no run is longer.
pub fn a_logic_holds_for_its_slot()
    ensures complete { IsComplete one_slot held_once }
    ensures held { holds held_once ≡ 1 }
    ensures most { length held_once ≡ most one_slot }
{}

/// A Draw, like a Path, starts on the only small fiber, where no large one is free. With two slots the second frame spreads
/// before the first is shown.
pub fn a_draw_starts_on_a_small_fiber()
    ensures one_small { free two_slots (state two_slots second_begun) Small ≡ 1 }
    ensures no_large { free two_slots (state two_slots second_begun) Large ≡ 0 }
    ensures draw { IsLegal two_slots (state two_slots second_begun) (Start 0 (Draw 1 0)) }
    ensures path { IsLegal two_slots (state two_slots second_begun) (Start 0 (Path 2 0 0)) }
    ensures complete { IsComplete two_slots (second_begun ++ second_ended) }
    ensures least { length (second_begun ++ second_ended) ≡ least two_slots }
{}

/// A Think starts on the last large fiber, and doesn't where a small one alone is free.
pub fn a_think_starts_on_a_large_fiber()
    ensures one_large { free (two_agents 2) (state (two_agents 2) spread_once) Large ≡ 1 }
    ensures starts { IsLegal (two_agents 2) (state (two_agents 2) spread_once) (Start 0 (Think 1 0)) }
    ensures no_large { free (two_agents 2) (state (two_agents 2) asked_once) Large ≡ 0 }
    ensures one_small { free (two_agents 2) (state (two_agents 2) asked_once) Small ≡ 1 }
    ensures waits { IsLegal (two_agents 2) (state (two_agents 2) asked_once) (Start 0 (Think 1 1)) → ⊥ }
    ensures starts_on_one_more { IsLegal (two_agents 3) (state (two_agents 3) asked_once) (Start 0 (Think 1 1)) }
{}

/// A Draw doesn't start where large fibers alone are free, and a Logic does.
pub fn a_draw_waits_for_a_small_fiber()
    ensures no_small { free (no_agents 1) (state (no_agents 1) one_drawn) Small ≡ 0 }
    ensures two_large { free (no_agents 1) (state (no_agents 1) one_drawn) Large ≡ 2 }
    ensures waits { IsLegal (no_agents 1) (state (no_agents 1) one_drawn) (Start 1 (Draw 1 1)) → ⊥ }
    ensures logic { IsLegal (no_agents 1) (state (no_agents 1) one_drawn) (Start 2 (Logic 2)) }
    ensures starts_on_one_more { IsLegal (no_agents 2) (state (no_agents 2) one_drawn) (Start 1 (Draw 1 1)) }
{}

/// Two workers start jobs in any order, run two of a kind at once, and go on with what the other began.
pub fn workers_share_a_frame()
    ensures complete { IsComplete two_workers shared }
    ensures least { length shared ≡ least two_workers }
{}
