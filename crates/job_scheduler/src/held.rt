use job_core::names::JobName;
use std::marker::Model;

/// The job that a fiber holds, how far it has come, and the worker that runs it, if one does. A Logic is at step 0 at
/// its start and at 1 once it has spread; a Think's step is the number of questions that it has asked.
#[derive(Clone, Copy, Debug, PartialEq, Eq)]
pub struct Held {
    pub job: JobName,
    pub step: u32,
    pub worker: Option<u32>,
}

impl Model for Held {
    ghost use Rattle.board_model.specs.Board.{Held as HeldJob};

    ghost Value = { HeldJob };

    ghost view = { λ h. record { job = h.job; step = h.step; worker = h.worker } };

    ghost inverse = { λ h. record { job = h.job; step = h.step; worker = h.worker } };
}
