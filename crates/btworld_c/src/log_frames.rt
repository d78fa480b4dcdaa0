// How many frames a log shows.
ghost use Rattle.std.specs.Prelude.{◌≡◌, ◌≢◌};
ghost use Rattle.btworld_c.specs.Statuses.{done, incomplete, illegal_event};
ghost use Rattle.btworld_c.specs.Logs.{CountsAll, CountsFew, IsIllegalEvent, IsNotReplayed};

use crate::logs::{NotShown, counted, session_in, whole_status};
use std::alloc::Global;

/// The number of the frames that a log shows of the game that a level's and a script's bytes spell. 51 comes where they are
/// fewer than the log is of, and they are counted. Any other status is that of the first fault of the level, the script or the
/// log; with 50 comes the number of the event that isn't legal, counted from 0. It takes as long as to play the frames once.
#[unsafe(no_mangle)]
pub extern "C" fn btworld_log_frames(
    alloc: Global,
    level: &[u8],
    script: &[u8],
    log: &[u8],
    frames: &mut u32,
    event: &mut u64,
) -> u32
    ensures ok { result ≡ done → CountsAll level.now script.now log.now frames.new }
    ensures few { result ≡ incomplete → CountsFew level.now script.now log.now frames.new }
    ensures illegal { result ≡ illegal_event → IsIllegalEvent level.now script.now log.now event.new }
    ensures refused { result ≢ done → result ≢ incomplete → IsNotReplayed level.now script.now log.now result }
    ensures frames { result ≢ done → result ≢ incomplete → frames.new ≡ frames.old }
    ensures event { result ≢ illegal_event → event.new ≡ event.old }
{
    let session = match session_in(alloc, level, script) {
        Ok(session) => session,
        Err(status) => return status,
    };
    match counted(alloc, &session, log) {
        Ok((settings, count)) => {
            *frames = count;
            whole_status(settings, count)
        }
        Err(
            NotShown {
                status,
                event: Some(index),
            },
        ) => {
            *event = index;
            status
        }
        Err(
            NotShown {
                status,
                event: None,
            },
        ) => status,
    }
}
