// Jobs and events in numbers.
ghost use Rattle.std.specs.Prelude.{◌≡◌};
ghost use Rattle.frame_jobs_c.specs.Calls.{job_state, job_named, event_state};
ghost use Rattle.frame_jobs_c.specs.Logs.{event_named};

use crate::held::{EventState, Job};
use frame_jobs::{Event, JobName};

pub(crate) fn job_of(name: JobName, step: u32) -> Job
    ensures { result ≡ job_state name step }
{
    match name {
        JobName::Logic { frame } => Job {
            kind: 0,
            frame,
            index: 0,
            question: step,
        },
        JobName::Think { frame, agent } => Job {
            kind: 1,
            frame,
            index: agent,
            question: step,
        },
        JobName::Path {
            frame,
            agent,
            question,
        } => Job {
            kind: 2,
            frame,
            index: agent,
            question,
        },
        JobName::Draw { frame, band } => Job {
            kind: 3,
            frame,
            index: band,
            question: step,
        },
    }
}

// Any kind above 2 is a Draw's.
pub(crate) fn name_of(job: &Job) -> JobName
    ensures { result ≡ job_named job.now }
{
    match job.kind {
        0 => JobName::Logic { frame: job.frame },
        1 => JobName::Think {
            frame: job.frame,
            agent: job.index,
        },
        2 => JobName::Path {
            frame: job.frame,
            agent: job.index,
            question: job.question,
        },
        _ => JobName::Draw {
            frame: job.frame,
            band: job.index,
        },
    }
}

pub(crate) fn state_of(event: Event) -> EventState
    ensures { result ≡ event_state event }
{
    match event {
        Event::Start { worker, job } => EventState {
            kind: 0,
            worker,
            job: job_of(job, 0),
        },
        Event::Resume { worker, job } => EventState {
            kind: 1,
            worker,
            job: job_of(job, 0),
        },
        Event::Ask { worker, job } => EventState {
            kind: 2,
            worker,
            job: job_of(job, 0),
        },
        Event::Spread { worker, job } => EventState {
            kind: 3,
            worker,
            job: job_of(job, 0),
        },
        Event::Hold { worker, job } => EventState {
            kind: 4,
            worker,
            job: job_of(job, 0),
        },
        Event::Finish { worker, job } => EventState {
            kind: 5,
            worker,
            job: job_of(job, 0),
        },
        Event::Emit { frame } => EventState {
            kind: 6,
            worker: 0,
            job: Job {
                kind: 0,
                frame,
                index: 0,
                question: 0,
            },
        },
        Event::Stop => EventState {
            kind: 7,
            worker: 0,
            job: Job {
                kind: 0,
                frame: 0,
                index: 0,
                question: 0,
            },
        },
    }
}

// Any kind above 6 is a Stop's.
pub(crate) fn event_named(state: &EventState) -> Event
    ensures { result ≡ event_named state.now }
{
    let worker = state.worker;
    match state.kind {
        0 => Event::Start {
            worker,
            job: name_of(&state.job),
        },
        1 => Event::Resume {
            worker,
            job: name_of(&state.job),
        },
        2 => Event::Ask {
            worker,
            job: name_of(&state.job),
        },
        3 => Event::Spread {
            worker,
            job: name_of(&state.job),
        },
        4 => Event::Hold {
            worker,
            job: name_of(&state.job),
        },
        5 => Event::Finish {
            worker,
            job: name_of(&state.job),
        },
        6 => Event::Emit {
            frame: state.job.frame,
        },
        _ => Event::Stop,
    }
}
