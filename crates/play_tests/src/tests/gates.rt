use play_run::Gate;
use std::sync::atomic::{AtomicU64, Ordering};
use task_board::JobName;

// Looks until so many have come; false after so many looks.
fn wait_for(come: &AtomicU64, need: u64, looks: u64) -> bool {
    for _ in 0..looks {
        if come.load(Ordering::SeqCst) >= need {
            return true;
        }
    }
    false
}

/// Holds one job until another has come, both before their work or both after it.
#[derive(Drop)]
pub struct Until {
    pub held: JobName,
    pub other: JobName,
    pub worked: bool,
    pub looks: u64,
    pub come: AtomicU64,
}

impl Gate for Until {
    fn pass(&self, _worker: u32, job: JobName, worked: bool) -> bool {
        if worked != self.worked {
            return true;
        }
        if job == self.other {
            self.come.fetch_add(1, Ordering::SeqCst);
        }
        job != self.held || wait_for(&self.come, 1, self.looks)
    }
}

/// Holds each think, or each draw, until as many as four a frame have come.
#[derive(Drop)]
pub struct Four {
    pub draws: bool,
    pub looks: u64,
    pub come: AtomicU64,
}

impl Four {
    pub fn new(draws: bool, looks: u64) -> Four {
        Four {
            draws,
            looks,
            come: AtomicU64::new(0),
        }
    }
}

impl Gate for Four {
    fn pass(&self, _worker: u32, job: JobName, worked: bool) -> bool {
        let frame = match job {
            JobName::Think { frame, .. } if !self.draws => frame,
            JobName::Draw { frame, .. } if self.draws => frame,
            _ => return true,
        };
        if worked {
            return true;
        }
        self.come.fetch_add(1, Ordering::SeqCst);
        wait_for(&self.come, 4 * u64::from(frame), self.looks)
    }
}
