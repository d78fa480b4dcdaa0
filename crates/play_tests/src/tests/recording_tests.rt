// The gate is asked for each job that a worker is given, once before its work and once after it.
use super::levels::CROWD;
use play_run::{Gate, run_bytes};
use std::sync::{Mutex, Wait};
use std::test::Fail;
use task_board::{Event, JobName, Settings};

// A worker, its job, and whether it is worked.
type Asked = (u32, JobName, bool);

/// Writes down what it is asked.
#[derive(Drop)]
struct Recorder<'r, R: Wait> {
    rt: &'r R,
    asked: Mutex<Vec<Asked>>,
}

impl<'r, R: Wait + Sync> Gate for Recorder<'r, R> {
    fn pass(&self, worker: u32, job: JobName, worked: bool) -> bool {
        self.asked.lock(self.rt).push((worker, job, worked)).is_ok()
    }
}

// The worker that is given a job by the event.
fn given(event: &Event) -> Option<(u32, JobName)> {
    match event {
        Event::Start { worker, job } => Some((*worker, *job)),
        Event::Resume { worker, job } => Some((*worker, *job)),
        _ => None,
    }
}

fn times_given(events: &[Event], worker: u32, job: JobName) -> usize {
    events
        .iter()
        .filter(|event| given(event) == Some((worker, job)))
        .count()
}

fn times_asked(asked: &[Asked], worker: u32, job: JobName, worked: bool) -> usize {
    asked
        .iter()
        .filter(|question| **question == (worker, job, worked))
        .count()
}

// Whether each question is about a job that its worker was given, and asked as often as it was.
fn is_asked_right(events: &[Event], asked: &[Asked]) -> bool {
    for (worker, job, worked) in asked {
        let times = times_given(events, *worker, *job);
        if times_asked(asked, *worker, *job, *worked) != times {
            return false;
        }
    }
    true
}

// Whether each job that a worker was given is asked for before and after its work.
fn is_all_asked(events: &[Event], asked: &[Asked]) -> bool {
    for event in events {
        if let Some((worker, job)) = given(event) {
            if times_asked(asked, worker, job, false) == 0
                || times_asked(asked, worker, job, true) == 0
            {
                return false;
            }
        }
    }
    true
}

#[test]
fn each_job_is_asked_for_twice(rt: HostRuntime) -> Result<(), Fail> {
    let alloc = rt.alloc();
    let gate = Recorder {
        rt: &rt,
        asked: Mutex::new(Vec::new(alloc)),
    };
    let mut out: Vec<u8> = Vec::new(alloc);
    let settings = Settings::new(2, 16, 16, 63, 16)?;
    let report = run_bytes(&rt, alloc, CROWD, b"", settings, &mut out, &gate)?;
    let asked = gate.asked.into_inner();
    assert!(rt; is_asked_right(&report.events, &asked));
    assert!(rt; is_all_asked(&report.events, &asked));
    Ok(())
}
