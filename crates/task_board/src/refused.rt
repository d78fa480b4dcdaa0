use job_scheduler::BoardFault;

/// A value that was handed in and comes back, and why.
#[derive(Drop)]
pub struct Refused<V> {
    pub fault: BoardFault,
    pub value: V,
}
