// FNV-1a of 64 bits over the bytes of a script.
ghost use Rattle.std.specs.Prelude.{◌≡◌};
ghost use Rattle.stepping.specs.Digest.{fnv_all};
ghost use Rattle.stepping.specs.LevelDigest.{change_bytes, script_digest_of};

use crate::digest::{OFFSET, with_byte, with_four};
use game_rules::Change;
use game_session::Script;

fn with_change(hash: u64, change: &Change) -> u64
    ensures { result ≡ fnv_all hash (change_bytes change.now) }
{
    let frame = with_four(hash, change.frame);
    let signal = with_byte(frame, change.signal.number() as u8);
    with_byte(signal, u8::from(change.on))
}

/// FNV-1a of 64 bits over the changes of a script, line by line: the frame in 4 bytes, the lowest first, a byte with the
/// number of the letter, 0 for `a`, and a byte that is 1 for on.
pub fn script_digest(script: &Script) -> u64
    ensures { result ≡ script_digest_of script.now }
{
    let mut so_far = OFFSET;
    'changes: for change in script.changes() {
        so_far = with_change(so_far, change);
    }
    so_far
}
