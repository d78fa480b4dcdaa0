// The signals that were handed in for the frames so far, as a script.
ghost use Rattle.std.specs.Prelude.{◌≡◌, IfOk};
ghost use Rattle.stepping.specs.Played.{AreInOrder, changes_by, changes_so_far};

use crate::played::Stepping;
use game_rules::Change;
use game_session::Script;
use std::alloc::{AllocError, Global};

// The changes up to a frame.
fn script_by(alloc: Global, frame: u32, changes: &[Change]) -> Result<Script, AllocError>
    requires { AreInOrder changes.now }
    ensures value { IfOk result (λ script. script ≡ changes_by frame changes.now) }
    ensures ordered { IfOk result AreInOrder }
{
    let mut script = Script::empty(alloc);
    'changes: for change in changes {
        if change.frame <= frame {
            script.push(*change)?;
        }
    }
    Ok(script)
}

impl Stepping {
    /// The changes of signals that were handed in for the frames so far. The level's game with them as its script shows the
    /// same frames up to this one, and the same states but for their next signals. It takes time linear in their number.
    pub fn script_so_far(&self, alloc: Global) -> Result<Script, AllocError>
        ensures value { IfOk result (λ script. script ≡ changes_so_far self.now) }
        ensures ordered { IfOk result AreInOrder }
    {
        script_by(alloc, self.frame(), self.changes())
    }
}
