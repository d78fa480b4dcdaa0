// A script as text.
ghost use Rattle.std.specs.Prelude.{◌≡◌, ◌<◌, ◌⊎◌, ◌++◌, OnOk, IfOk, IfErr, Ok};
ghost use Rattle.level_text.specs.Scripts.{script_of};
ghost use Rattle.stepping.specs.Played.{AreInOrder};
ghost use Rattle.btworld_c.specs.Statuses.{no_memory, long};
ghost use Rattle.btworld_c.specs.Scripts.{change_text, HasLate};

use crate::status::{LONG, NO_MEMORY};
use byte_streams::push_number;
use game_rules::Change;
use game_session::Script;
use std::alloc::{AllocError, Global};

// The last frame that a script can name.
const LAST: u32 = 9999;

fn push_change(text: &mut Vec<u8>, change: &Change) -> Result<(), AllocError>
    ensures text { OnOk result (text.new.items ≡ text.old.items ++ change_text change.now) }
    ensures letter { OnOk result (change.now.signal < 26) }
{
    push_number(text, b"", change.frame)?;
    text.extend_from_slice(if change.on { b" on " } else { b" off " })?;
    text.extend_from_slice(&[b'a' + change.signal.number() as u8, b'\n'])
}

// The file of a script, or why there is none.
pub(crate) fn script_text(alloc: Global, script: &Script) -> Result<Vec<u8>, u32>
    requires { AreInOrder script.now }
    ensures spells { IfOk result (λ text. script_of text.items ≡ Ok script.now) }
    ensures refused { IfErr result (λ status. (status ≡ no_memory) ⊎ ((status ≡ long) × HasLate script.now)) }
{
    let mut text = Vec::new(alloc);
    'changes: for change in script.changes() {
        if change.frame > LAST {
            return Err(LONG);
        }
        let Ok(()) = push_change(&mut text, change) else {
            return Err(NO_MEMORY);
        };
    }
    Ok(text)
}
