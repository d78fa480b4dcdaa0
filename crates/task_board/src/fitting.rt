ghost use Rattle.std.specs.Prelude.{◌≡◌, ◌<◌, ◌⊎◌, true, false, ◌↔◌, IsTrue};
ghost use Rattle.job_core.specs.declared.names.JobName.TheVariants.{Think};
ghost use Rattle.frame_state.specs.Contents.{questions_in};
ghost use Rattle.task_board.specs.Dones.{job_done};

use crate::done::Done;
use frame_params::Parked;
use job_core::names::JobName;
use job_queues::is_same;
use job_scheduler::Held;

// Whether it is the end of this job.
#[inline(always)]
pub(crate) fn is_of(done: &Done, job: JobName) -> bool
    ensures { IsTrue result ↔ (job_done done.now ≡ job) }
{
    if is_same(done.name(), job) {
        return true;
    }
    false
}

// Whether a parked tick is that of the job and the question at which a worker stands.
#[inline(always)]
pub(crate) fn is_parked_at(parked: &Parked, held: Held) -> bool
    ensures here { result ≡ true → (Think parked.now.frame parked.now.agent ≡ held.job) × (parked.now.question ≡ held.step)
        × (held.step < questions_in parked.now.game parked.now.frame parked.now.agent) }
    ensures elsewhere { result ≡ false → (Think parked.now.frame parked.now.agent ≡ held.job → ⊥) ⊎ (parked.now.question ≡ held.step → ⊥) }
{
    if !is_same(parked.name(), held.job) {
        return false;
    }
    if parked.question() != held.step {
        return false;
    }
    true
}
