// A level's check.
ghost use Rattle.btworld_c.specs.Statuses.{IsLevelStatus};

use crate::status::{OK, level_status};
use level_text::read_level;
use std::alloc::Global;

#[tactic(auto, using(crate::proofs::Told::level_told))]
/// Whether bytes spell a level: 0, or the number of their first fault, or that memory was refused. It reads the bytes once.
#[unsafe(no_mangle)]
pub extern "C" fn btworld_check(alloc: Global, level: &[u8]) -> u32
    ensures { IsLevelStatus level.now result }
{
    match read_level(alloc, level) {
        Ok(_) => OK,
        Err(fault) => level_status(&fault),
    }
}
