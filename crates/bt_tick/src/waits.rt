// Nodes that wait.

ghost use Rattle.std.specs.Prelude.{◌≡◌};
ghost use Rattle.bt_nodes.specs.Plain.{Wait};
ghost use Rattle.game_rules.specs.View.{View};
ghost use Rattle.game_rules.specs.Tick.{gives, tick};
ghost use Rattle.bt_tick.specs.Places.{Sits};
ghost use Rattle.bt_tick.specs.Machine.{whole_of, KeepsLeft};

use crate::machine::Machine;
use bt_nodes::Status;
use std::alloc::Allocator;

impl<'t, T: Allocator, A: Allocator> Machine<'t, T, A> {
    // Ticks a `Wait` of so many ticks, which has this number.
    #[inline(always)]
    pub(crate) fn wait(&mut self, number: u64, most: u64) -> Status
        requires { Sits (whole_of self.old) number (Wait most) }
        ensures ticks { (v : View) → KeepsLeft self.new self.old (gives result) (tick v (Wait most) number) }
        ensures stack { self.new.stack ≡ self.old.stack }
        ensures wants { self.new.wants ≡ self.old.wants }
        ensures tree { self.new.tree ≡ self.old.tree }
    {
        let past = self.memory.number(number);
        if (past as u64) < most {
            self.memory.set(number, past + 1);
            return Status::Running;
        }
        self.memory.set(number, 0);
        Status::Success
    }
}
