ghost use Rattle.std.specs.Prelude.{◌≡◌, ◌<◌, length, ◌==◌, true, false, Some, option_map, IfOk, IfErr, IfSome, OnOk, OnErr};
ghost use Rattle.job_core.specs.Core.{same};
ghost use Rattle.board_model.specs.Lists.{all, has};
ghost use Rattle.board_model.specs.Board.{put_all, first};
ghost use Rattle.board_model.specs.Pick.{pick};
ghost use Rattle.job_queues.specs.Names.{level, picked, of_level};
ghost use Rattle.job_queues.specs.Lanes.{may_start, free_fibers};
ghost use Rattle.job_queues.specs.Waiting.{empty, with_fresh, put_new, put_ready, logic_after, without_job, without_fiber};
ghost use Rattle.job_queues.specs.Picks.{after_pick, IsAt, IsFirstOf};

use super::fiber::Fiber;
use super::found::Found;
use super::free::Free;
use super::pick::Pick;
use super::priority::job_priority;
use super::priority_queue::PriorityQueue;
use super::queue_index::QueueIndex;
use job_core::names::{JobName, Priority};
use std::alloc::{AllocError, Global};
use std::marker::Model;

/// Why a call of the queues is refused, which leaves them as they are.
#[derive(Clone, Copy, Debug, PartialEq, Eq)]
pub enum QueueFault {
    OutOfMemory,
    /// No such job is queued, or no such fiber is ready.
    NotThere,
}

/// For each priority the jobs that may start and the fibers that may go on, in the order in which they came.
#[derive(Drop)]
pub struct Queues {
    fibers: u32,
    low: PriorityQueue,
    normal: PriorityQueue,
    high: PriorityQueue,
}

impl Model for Queues {
    ghost use Rattle.std.specs.Prelude.{◌≤◌};
    ghost use Rattle.job_queues.specs.Waiting.{BoundedQueues};

    ghost Value = { BoundedQueues };

    ghost view = { λ q. record {
      queues = record {
        fresh = record { high = q.high.fresh.items; normal = q.normal.fresh.items; low = q.low.fresh.items };
        ready = record { high = q.high.ready.items; normal = q.normal.ready.items; low = q.low.ready.items };
      };
      fibers = q.fibers;
    } };

    ghost invariant = { λ q. (q.fibers ≤ q.high.ready.room) × (q.fibers ≤ q.normal.ready.room) × (q.fibers ≤ q.low.ready.room) };
}

impl Queues {
    /// Empty queues, with room for so many ready fibers at each priority.
    pub fn new(alloc: Global, fibers: u32) -> Result<Queues, QueueFault>
        ensures empty { IfOk result (λ q. q ≡ empty fibers) }
        ensures fault { IfErr result (λ e. e ≡ QueueFault.OutOfMemory) }
    {
        Queues::with_room(alloc, fibers).map_err(|_| QueueFault::OutOfMemory)
    }

    fn with_room(alloc: Global, fibers: u32) -> Result<Queues, AllocError>
        ensures { IfOk result (λ q. q ≡ empty fibers) }
    {
        Ok(Queues {
            high: PriorityQueue::new(alloc, fibers)?,
            normal: PriorityQueue::new(alloc, fibers)?,
            low: PriorityQueue::new(alloc, fibers)?,
            fibers,
        })
    }

    /// What comes next, and where it stands: of the highest priority that has one, the first ready fiber, or else the first new
    /// job that may start where so many small and so many large fibers are free. It takes no memory, and the time of a look
    /// at the jobs before it.
    #[inline(always)]
    pub fn find(&self, small_free: u32, large_free: u32) -> Option<Found>
        ensures value { option_map (λ found. picked found.pick) result ≡ pick (may_start (free_fibers small_free large_free)) self.now.queues }
        ensures place { IfSome result (λ found. IsAt self.now.queues found.pick found.place) }
    {
        let free = Free {
            small: small_free,
            large: large_free,
        };
        if let Some((pick, index)) = self.high.find(free) {
            return Some(Found {
                pick,
                place: QueueIndex {
                    priority: Priority::High,
                    index,
                },
            });
        }
        if let Some((pick, index)) = self.normal.find(free) {
            return Some(Found {
                pick,
                place: QueueIndex {
                    priority: Priority::Normal,
                    index,
                },
            });
        }
        let Some((pick, index)) = self.low.find(free) else {
            return None;
        };
        Some(Found {
            pick,
            place: QueueIndex {
                priority: Priority::Low,
                index,
            },
        })
    }

    /// What `pick` would answer, with nothing taken out. It takes no memory.
    #[inline(always)]
    pub fn peek(&self, small_free: u32, large_free: u32) -> Option<Pick>
        ensures { option_map picked result ≡ pick (may_start (free_fibers small_free large_free)) self.now.queues }
    {
        let found = self.find(small_free, large_free)?;
        Some(found.pick)
    }

    /// Where a new job's first entry stands, of the highest priority that has one.
    #[inline(always)]
    pub fn find_job(&self, job: JobName) -> Option<QueueIndex>
        ensures { IsFirstOf (same job) self.now.queues.fresh result }
    {
        if let Some(index) = self.high.find_job(job) {
            return Some(QueueIndex {
                priority: Priority::High,
                index,
            });
        }
        if let Some(index) = self.normal.find_job(job) {
            return Some(QueueIndex {
                priority: Priority::Normal,
                index,
            });
        }
        let Some(index) = self.low.find_job(job) else {
            return None;
        };
        Some(QueueIndex {
            priority: Priority::Low,
            index,
        })
    }

    /// Where a ready fiber's first entry stands, of the highest priority that has one.
    #[inline(always)]
    pub fn find_ready(&self, fiber: Fiber) -> Option<QueueIndex>
        ensures { IsFirstOf (λ other. fiber == other) self.now.queues.ready result }
    {
        if let Some(index) = self.high.find_ready(fiber) {
            return Some(QueueIndex {
                priority: Priority::High,
                index,
            });
        }
        if let Some(index) = self.normal.find_ready(fiber) {
            return Some(QueueIndex {
                priority: Priority::Normal,
                index,
            });
        }
        let Some(index) = self.low.find_ready(fiber) else {
            return None;
        };
        Some(QueueIndex {
            priority: Priority::Low,
            index,
        })
    }

    /// The new jobs of a priority, in the order in which they came.
    #[inline(always)]
    pub fn queued(&self, priority: Priority) -> &[JobName]
        ensures { result.now ≡ of_level priority self.now.queues.fresh }
    {
        match priority {
            Priority::High => self.high.fresh.waiting(),
            Priority::Normal => self.normal.fresh.waiting(),
            Priority::Low => self.low.fresh.waiting(),
        }
    }

    /// The ready fibers of a priority, in the order in which they came.
    #[inline(always)]
    pub fn ready(&self, priority: Priority) -> &[Fiber]
        ensures { result.now ≡ of_level priority self.now.queues.ready }
    {
        match priority {
            Priority::High => self.high.ready.waiting(),
            Priority::Normal => self.normal.ready.waiting(),
            Priority::Low => self.low.ready.waiting(),
        }
    }

    /// Whether a job is among the new ones.
    pub fn is_queued(&self, job: JobName) -> bool
        ensures { result ≡ has (same job) (all self.now.queues.fresh) }
    {
        match self.find_job(job) {
            Some(_) => true,
            None => false,
        }
    }

    /// Whether a fiber is among the ready ones.
    pub fn is_ready(&self, fiber: Fiber) -> bool
        ensures { result ≡ has (λ other. fiber == other) (all self.now.queues.ready) }
    {
        match self.find_ready(fiber) {
            Some(_) => true,
            None => false,
        }
    }

    /// Takes out what was found, at its place.
    #[inline(always)]
    pub fn take_found(&mut self, found: Found)
        requires { IsAt self.old.queues found.pick found.place }
        ensures { self.new ≡ after_pick (Some found.pick) self.old }
    {
        let Found { pick, place } = found;
        match place.priority {
            Priority::High => self.high.take(pick, place.index),
            Priority::Normal => self.normal.take(pick, place.index),
            Priority::Low => self.low.take(pick, place.index),
        }
    }

    /// Takes out, of the highest priority that has one, the first ready fiber, or else the first new job that may
    /// start where so many small and so many large fibers are free. The time is that of a look at the jobs before it.
    pub fn pick(&mut self, small_free: u32, large_free: u32) -> Option<Pick>
        ensures value { option_map picked result ≡ pick (may_start (free_fibers small_free large_free)) self.old.queues }
        ensures after { self.new ≡ after_pick result self.old }
    {
        let Some(found) = self.find(small_free, large_free) else {
            return None;
        };
        let pick = found.pick;
        self.take_found(found);
        Some(pick)
    }

    /// Queues a job at the end of its priority's queue.
    #[inline(always)]
    pub fn put_new(&mut self, job: JobName) -> Result<(), QueueFault>
        ensures after { OnOk result (self.new ≡ put_new job self.old) }
        ensures fault { IfErr result (λ e. e ≡ QueueFault.OutOfMemory) }
        ensures unchanged { OnErr result (self.new ≡ self.old) }
    {
        let done = match job_priority(job) {
            Priority::High => self.high.put_new(job),
            Priority::Normal => self.normal.put_new(job),
            Priority::Low => self.low.put_new(job),
        };
        if done.is_err() {
            return Err(QueueFault::OutOfMemory);
        }
        Ok(())
    }

    /// Makes a fiber ready, behind those that are. It takes no memory, for `new` made room.
    #[inline(always)]
    pub fn put_ready(&mut self, priority: Priority, fiber: Fiber)
        requires { length (all self.old.queues.ready) < self.old.fibers }
        ensures { self.new ≡ put_ready (level priority) fiber self.old }
    {
        match priority {
            Priority::High => self.high.put_ready(fiber),
            Priority::Normal => self.normal.put_ready(fiber),
            Priority::Low => self.low.put_ready(fiber),
        }
    }

    /// Queues all of these jobs, in order, or none.
    pub fn put_all(&mut self, jobs: &[JobName]) -> Result<(), QueueFault>
        ensures after { OnOk result (self.new ≡ with_fresh self.old (put_all self.old.queues.fresh jobs.now)) }
        ensures fault { IfErr result (λ e. e ≡ QueueFault.OutOfMemory) }
        ensures unchanged { OnErr result (self.new ≡ self.old) }
    {
        let more = jobs.len();
        if self.high.reserve(more).is_err() {
            return Err(QueueFault::OutOfMemory);
        }
        if self.normal.reserve(more).is_err() {
            return Err(QueueFault::OutOfMemory);
        }
        if self.low.reserve(more).is_err() {
            return Err(QueueFault::OutOfMemory);
        }
        for job in jobs {
            match job_priority(*job) {
                Priority::High => self.high.put_reserved(*job),
                Priority::Normal => self.normal.put_reserved(*job),
                Priority::Low => self.low.put_reserved(*job),
            }
        }
        Ok(())
    }

    /// Queues the thinks of a frame, by agent, or none.
    pub fn put_thinks(&mut self, frame: u32, agents: u32) -> Result<(), QueueFault>
        ensures after { OnOk result (self.new ≡ with_fresh self.old (put_all self.old.queues.fresh (first agents (JobName.Think frame)))) }
        ensures fault { IfErr result (λ e. e ≡ QueueFault.OutOfMemory) }
        ensures unchanged { OnErr result (self.new ≡ self.old) }
    {
        if self.normal.reserve(agents as usize).is_err() {
            return Err(QueueFault::OutOfMemory);
        }
        self.normal.put_thinks(frame, agents);
        Ok(())
    }

    /// Queues what follows a frame's Logic: its draws, by band, and then the next frame's Logic, if there is one. Or none.
    pub fn put_followers(&mut self, frame: u32, bands: u32, frames: u32) -> Result<(), QueueFault>
        ensures after { OnOk result (self.new ≡ with_fresh self.old (put_all (put_all self.old.queues.fresh (first bands (JobName.Draw frame))) (logic_after frame frames))) }
        ensures fault { IfErr result (λ e. e ≡ QueueFault.OutOfMemory) }
        ensures unchanged { OnErr result (self.new ≡ self.old) }
    {
        if self.low.reserve(bands as usize).is_err() {
            return Err(QueueFault::OutOfMemory);
        }
        if frame >= frames {
            self.low.put_draws(frame, bands);
            return Ok(());
        }
        if self.high.reserve(1).is_err() {
            return Err(QueueFault::OutOfMemory);
        }
        self.low.put_draws(frame, bands);
        self.high.put_reserved(JobName::Logic { frame: frame + 1 });
        Ok(())
    }

    /// Takes the first entry of a new job out, of the highest priority that has one.
    #[inline(always)]
    pub fn take_out(&mut self, job: JobName) -> Result<(), QueueFault>
        ensures after { OnOk result (self.new ≡ without_job job self.old) }
        ensures there { OnOk result (has (same job) (all self.old.queues.fresh) ≡ true) }
        ensures fault { IfErr result (λ e. e ≡ QueueFault.NotThere) }
        ensures not_there { OnErr result (has (same job) (all self.old.queues.fresh) ≡ false) }
        ensures unchanged { OnErr result (self.new ≡ self.old) }
    {
        let Some(place) = self.find_job(job) else {
            return Err(QueueFault::NotThere);
        };
        self.take_found(Found {
            pick: Pick::New(job),
            place,
        });
        Ok(())
    }

    /// Takes the first entry of a ready fiber out, of the highest priority that has one.
    #[inline(always)]
    pub fn take_ready(&mut self, fiber: Fiber) -> Result<(), QueueFault>
        ensures after { OnOk result (self.new ≡ without_fiber fiber self.old) }
        ensures there { OnOk result (has (λ other. fiber == other) (all self.old.queues.ready) ≡ true) }
        ensures fault { IfErr result (λ e. e ≡ QueueFault.NotThere) }
        ensures not_there { OnErr result (has (λ other. fiber == other) (all self.old.queues.ready) ≡ false) }
        ensures unchanged { OnErr result (self.new ≡ self.old) }
    {
        let Some(place) = self.find_ready(fiber) else {
            return Err(QueueFault::NotThere);
        };
        self.take_found(Found {
            pick: Pick::Ready(fiber),
            place,
        });
        Ok(())
    }
}
