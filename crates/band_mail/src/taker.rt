//! The ends of all queues at which one thread takes.
use crate::queue::QueuePass;
use std::marker::Model;

/// The right to take bands from every queue of a mail. It may move to another thread.
#[derive(Drop)]
pub struct Taker<T> {
    pub(crate) passes: Vec<QueuePass<T>>,
}

impl<T> Model for Taker<T> {
    ghost use Rattle.std.specs.Prelude.{All};
    ghost use Rattle.band_mail.specs.Mails.{Taking};
    ghost use Rattle.band_mail.specs.Relay.{MayTake};
    ghost use Rattle.band_mail.specs.Queues.{pass_names, all_taken};

    ghost Value = { Taking T };

    ghost view = { λ t. record { mail = pass_names t.passes.items; taken = all_taken t.passes.items } };

    ghost invariant = { λ t. All MayTake t.passes.items };
}
