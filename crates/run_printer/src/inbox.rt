ghost use Rattle.std.specs.Prelude.{◌≡◌, IfOk};
ghost use Rattle.run_printer.specs.Counts.{AreAtMost};

use band_mail::{BandMail, Taker};
use run_shared::{RunBand, RunLedger};
use std::alloc::{AllocError, Global};
use std::sync::Wait;

/// The printer's end of the mail, with how many bands it took of each worker.
#[derive(Drop)]
pub struct Inbox<'t, L: RunLedger> {
    pub taker: Taker<RunBand<'t, L>>,
    pub counts: Vec<u64>,
    pub ghost counted: { AreAtMost counts.items taker.taken },
}

impl<'t, L: RunLedger> Inbox<'t, L> {
    /// Nothing is counted yet of so many workers.
    pub fn new(
        alloc: Global,
        taker: Taker<RunBand<'t, L>>,
        workers: u32,
    ) -> Result<Inbox<'t, L>, AllocError>
        ensures { IfOk result (λ inbox. inbox.taker ≡ taker.entry) }
    {
        let counts = Vec::from_elem(alloc, 0, workers as usize)?;
        Ok(Inbox { taker, counts })
    }

    /// Takes a band out of the mail, if there is one, and counts it.
    pub fn take<R: Wait>(
        &mut self,
        rt: &R,
        mail: &BandMail<RunBand<'t, L>>,
    ) -> Option<RunBand<'t, L>>
        requires { self.old.taker.mail ≡ mail.now }
        ensures { self.new.taker.mail ≡ mail.now }
    {
        let (worker, band) = mail.take(rt, &mut self.taker)?;
        if let Some(count) = self.counts.get_mut(worker as usize) {
            *count = count.saturating_add(1);
        }
        Some(band)
    }
}
