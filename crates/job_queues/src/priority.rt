ghost use Rattle.std.specs.Prelude.{◌≡◌};
ghost use Rattle.job_core.specs.Core.{same};
ghost use Rattle.board_model.specs.Board.{priority_of};
ghost use Rattle.job_queues.specs.Names.{level};

use job_core::names::{JobName, Priority};

/// How soon a job is taken.
#[inline(always)]
#[tactic(auto, using(crate::proofs::Levels::level_of))]
pub fn job_priority(job: JobName) -> Priority
    ensures { level result ≡ priority_of job }
{
    job.priority()
}

/// Whether two names are of one job: of one kind, with the same numbers. Written out, since a derived comparison is a call for
/// which both names are first put into memory, and this is done at each take and each finish.
#[inline(always)]
pub fn is_same(one: JobName, other: JobName) -> bool
    ensures { result ≡ same one other }
{
    match one {
        JobName::Logic { frame } => match other {
            JobName::Logic { frame: its_frame } => frame == its_frame,
            _ => false,
        },
        JobName::Think { frame, agent } => match other {
            JobName::Think {
                frame: its_frame,
                agent: its_agent,
            } => frame == its_frame && agent == its_agent,
            _ => false,
        },
        JobName::Path {
            frame,
            agent,
            question,
        } => match other {
            JobName::Path {
                frame: its_frame,
                agent: its_agent,
                question: its_question,
            } => frame == its_frame && agent == its_agent && question == its_question,
            _ => false,
        },
        JobName::Draw { frame, band } => match other {
            JobName::Draw {
                frame: its_frame,
                band: its_band,
            } => frame == its_frame && band == its_band,
            _ => false,
        },
    }
}
