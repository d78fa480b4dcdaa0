//! The end of a queue at which its worker puts.
use crate::queue::QueuePass;
use std::marker::Model;

/// A worker's right to put bands into its queue of a mail. It may move to another thread.
#[derive(Drop)]
pub struct Putter<T> {
    pub(crate) worker: u32,
    pub(crate) pass: QueuePass<T>,
}

impl<T> Model for Putter<T> {
    ghost use Rattle.crossbeam_queue.specs.Passes.{view as known};
    ghost use Rattle.band_mail.specs.Mails.{Putting};
    ghost use Rattle.band_mail.specs.Relay.{MayPut};

    ghost Value = { Putting T };

    ghost view = { λ p. record { worker = p.worker; queue = p.pass.table_id; put = (known p.pass).put } };

    ghost invariant = { λ p. MayPut p.pass };
}
