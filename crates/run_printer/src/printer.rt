ghost use Rattle.std.specs.Prelude.{◌≡◌, ◌+◌, ◌<◌, IfOk, OnOk, OnErr, IfErr, IfSome, IsTrue, MatchResult, Some, length, vec_len};
ghost use Rattle.std.specs.Io.KnownBytes.{Appends};
ghost use Rattle.game_rules.specs.Game.{Game};
ghost use Rattle.game_rules.specs.Text.{frame_text, texts};
ghost use Rattle.frame_state.specs.Contents.{bands_in};
ghost use Rattle.log_text.specs.Text.{events_text};
ghost use Rattle.run_shared.specs.Printed.{WrotePart};
ghost use Rattle.run_printer.specs.Journals.{AreShownIn, TakesPart};
ghost use Rattle.run_printer.specs.Tables.{AreFirstBands, AreAllBands};

use crate::band_table::BandTable;
use crate::inbox::Inbox;
use crate::journal::Journal;
use crate::noting::note_news;
use byte_streams::write_whole;
use draw_list::{Band, band_count, frame_text};
use game_session::Session;
use run_shared::{Cause, RunFault, RunLedger, Shared, ShownFrame};
use std::alloc::{AllocError, Global};
use std::io::Write;
use std::sync::Wait;
use std::sync::ledger::{Ledger, Share};
use std::time::Clock;
use task_board::{BoardFault, Event, Settings, Shown};
use wakeups::{Backoff, WorkerTuner};

// How many bands each frame has.
fn bands_of(session: &Session) -> u32
    ensures { result ≡ bands_in session.now }
{
    band_count(session.world().height())
}

/// The printer's side of the bands: its end of the mail, and what it took and did not print yet.
#[derive(Drop)]
pub struct Printer<'t, L: RunLedger> {
    pub inbox: Inbox<'t, L>,
    table: BandTable<'t, L>,
    // The bands of the frame that is printed next, from the top, as far as they came.
    next: Vec<Band>,
}

impl<'t, L: RunLedger> Printer<'t, L> {
    /// A printer that has taken nothing, for so many frames at a time.
    pub fn new(
        alloc: Global,
        inbox: Inbox<'t, L>,
        session: &Session,
        frames: u32,
    ) -> Result<Printer<'t, L>, AllocError>
        ensures { IfOk result (λ printer. printer.inbox.taker ≡ inbox.entry.taker) }
    {
        let bands = bands_of(session);
        let table = BandTable::new(alloc, frames, bands)?;
        let next = Vec::with_capacity(alloc, bands as usize)?;
        Ok(Printer { inbox, table, next })
    }

    // Moves all bands from the mail into the table. Whether there were any: then a worker may have waited for room.
    fn take_bands<M: Ledger, D: Ledger, R: Wait>(
        &mut self,
        rt: &R,
        shared: &Shared<'t, L, M, D>,
    ) -> bool
        requires { self.old.inbox.taker.mail ≡ shared.now.mail }
        ensures mail { self.new.inbox.taker.mail ≡ shared.now.mail }
        ensures next { self.new.next ≡ self.old.next }
    {
        let mut any = false;
        for _ in rt.forever() {
            match self.inbox.take(rt, &shared.mail) {
                Some(band) => self.table.keep(band),
                None => break,
            }
            any = true;
        }
        if any {
            shared.wakeups.call_for_room();
        }
        any
    }

    // Waits until all bands of a frame are there.
    fn gather<M: Ledger, D: Ledger, R: Wait>(
        &mut self,
        rt: &R,
        shared: &Shared<'t, L, M, D>,
        frame: u32,
        bands: u32,
        backoff: &mut Backoff,
    ) -> Result<(), Cause>
        requires { self.old.inbox.taker.mail ≡ shared.now.mail }
        ensures mail { self.new.inbox.taker.mail ≡ shared.now.mail }
        ensures all { OnOk result (vec_len self.new.next ≡ bands) }
        ensures first { OnOk result ((g : Game) → L.game ≡ Some g → AreFirstBands g frame self.new.next.items) }
    {
        self.next.clear();
        for _ in rt.forever() {
            let Ok(()) = self.table.take_next(frame, bands, &mut self.next) else {
                return Err(Cause::OutOfMemory);
            };
            if self.next.len() == bands as usize {
                return Ok(());
            }
            if self.take_bands(rt, shared) {
                continue;
            }
            // Who stopped the board has a cause of its own, which goes before this one.
            if shared.wakeups.printer.is_over() {
                return Err(Cause::Stranger);
            }
            shared.wakeups.printer.wait(rt, backoff);
        }
        unreachable!()
    }

    // Shows the frame whose bands lie in `next`, all of them, once its last Draw is finished. A worker is called where there is a
    // job to take then: a Logic may have waited for the frame's slot.
    fn show<M: Ledger, D: Ledger, R: Wait>(
        &self,
        rt: &R,
        shared: &Shared<'t, L, M, D>,
        emits: &mut Share<M>,
        backoff: &mut Backoff,
    ) -> Result<Shown<'t>, Cause>
        requires emits { (emits.old.parts ≡ M.parts) × (0 < M.parts) }
        requires drawn { (g : Game) → L.game ≡ Some g → AreAllBands g (emits.old.amount + 1) self.now.next.items }
        ensures parts { emits.new.parts ≡ emits.old.parts }
        ensures counted { OnOk result (emits.new.amount ≡ emits.old.amount + 1) }
        ensures next { IfOk result (λ shown. shown.frame ≡ emits.old.amount + 1) }
        ensures game { IfOk result (λ shown. L.game ≡ Some shown.game) }
    {
        for _ in rt.forever() {
            match shared.lock(rt).emit(emits) {
                Ok(
                    ShownFrame {
                        shown,
                        is_more,
                        retired: _retired,
                    },
                ) => {
                    if is_more {
                        shared.wakeups.call_worker();
                    }
                    return Ok(shown);
                }
                Err(BoardFault::Illegal) => shared.wakeups.printer.wait(rt, backoff),
                Err(BoardFault::OutOfMemory) => return Err(Cause::OutOfMemory),
                // Who stopped a board has a cause of its own, which goes before this one.
                Err(_) => return Err(Cause::Stranger),
            }
        }
        unreachable!()
    }

    // The text of the next frame, once all of it is drawn.
    fn next_text<M: Ledger, D: Ledger, R: Wait>(
        &mut self,
        rt: &R,
        alloc: Global,
        session: &Session,
        shared: &Shared<'t, L, M, D>,
        frame: u32,
        backoff: &mut Backoff,
        emits: &mut Share<M>,
    ) -> Result<Vec<u8>, Cause>
        requires run { L.game ≡ Some session.now }
        requires mail { self.old.inbox.taker.mail ≡ shared.now.mail }
        requires emits { (emits.old.parts ≡ M.parts) × (0 < M.parts) }
        requires frame { frame ≡ emits.old.amount + 1 }
        ensures mail { self.new.inbox.taker.mail ≡ shared.now.mail }
        ensures parts { emits.new.parts ≡ emits.old.parts }
        ensures counted { OnOk result (emits.new.amount ≡ emits.old.amount + 1) }
        ensures text { IfOk result (λ text. text.items ≡ frame_text session.now frame) }
    {
        self.gather(rt, shared, frame, bands_of(session), backoff)?;
        let turn = self.show(rt, shared, emits, backoff)?.into_turn();
        let text = frame_text(alloc, frame, &self.next, turn.world(), turn.statuses());
        shared.leave_printed(rt, &mut self.next);
        match text {
            Ok(text) => Ok(text),
            Err(_) => Err(Cause::OutOfMemory),
        }
    }
}

/// Shows and writes all frames in order, and flushes. Behind each frame a journal that follows the run is given the events up to
/// then; the answer is all that it was given. At a fault it stops the board.
pub fn print<'t, W: Write, J: Journal, L: RunLedger, M: Ledger, D: Ledger, R: Wait + Clock>(
    rt: &R,
    alloc: Global,
    session: &Session,
    settings: Settings,
    out: &mut W,
    journal: &mut J,
    shared: &Shared<'t, L, M, D>,
    emits: &mut Share<M>,
    printer: &mut Printer<'t, L>,
) -> Result<Vec<Event>, RunFault>
    requires run { L.game ≡ Some session.now }
    requires emits { (emits.old.parts ≡ M.parts) × (0 < M.parts) × (emits.old.amount ≡ 0) }
    requires mail { printer.old.inbox.taker.mail ≡ shared.now.mail }
    ensures parts { emits.new.parts ≡ emits.old.parts }
    ensures mail { printer.new.inbox.taker.mail ≡ shared.now.mail }
    ensures emits { OnOk result (emits.new.amount ≡ settings.frames) }
    ensures ok { OnOk result (Appends (W.contents out.old) (W.contents out.new) (texts session.now settings.frames)) }
    ensures err { IfErr result (λ e. WrotePart (W.contents out.old) (W.contents out.new) session.now settings.frames e.frames) }
    ensures journal { IfOk result (λ noted. Appends (J.contents journal.old) (J.contents journal.new) (events_text noted.items)) }
    ensures shown { IsTrue (J.is_follower journal.old) → IfOk result (λ noted. AreShownIn noted.items settings.frames) }
    ensures part { OnErr result (TakesPart (J.contents journal.old) (J.contents journal.new)) }
{
    let last = settings.frames();
    let mut noted = Vec::new(alloc);
    let mut backoff = Backoff::new();
    let mut tuner = WorkerTuner::new();
    for done in 0..last {
        let text = match printer.next_text(
            rt,
            alloc,
            session,
            shared,
            done + 1,
            &mut backoff,
            emits,
        ) {
            Ok(text) => text,
            Err(cause) => {
                shared.stop(rt);
                return Err(RunFault {
                    cause,
                    frames: done,
                });
            }
        };
        tuner.count_frame(rt, &shared.wakeups);
        match write_whole(out, &text) {
            Ok(()) => {}
            Err(_) => {
                shared.stop(rt);
                return Err(RunFault {
                    cause: Cause::Write,
                    frames: done,
                });
            }
        }
        match note_news(rt, alloc, shared, done + 1, journal, &mut noted) {
            Ok(()) => {}
            Err(cause) => {
                shared.stop(rt);
                return Err(RunFault {
                    cause,
                    frames: done + 1,
                });
            }
        }
    }
    // There is no other task, so they end.
    shared.wakeups.call_workers();
    match out.flush() {
        Ok(()) => Ok(noted),
        Err(_) => {
            shared.stop(rt);
            Err(RunFault {
                cause: Cause::Write,
                frames: last,
            })
        }
    }
}
