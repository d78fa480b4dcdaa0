ghost use Rattle.std.specs.Prelude.{◌≡◌, ◌≤◌, ◌<◌, List, [], ◌∷◌, ◌++◌, IfOk, IfErr, IsTrue, ◌≢◌, false, length, take};
ghost use Rattle.game_rules.specs.Game.{signals};
ghost use Rattle.game_session.specs.Changes.{last_frame, changed_all, all_off};

use game_rules::Change;
use grid_world::Signals;
use std::alloc::{AllocError, Global};
use std::marker::Model;

/// The changes of signals that a script file spells, line by line: their frames never fall.
#[derive(Debug)]
pub struct Script {
    changes: Vec<Change>,
    // The signals after each change, so that no frame walks the changes before it.
    after: Vec<Signals>,
}

impl Drop for Script {
    fn drop(self) {
        let Self {
            changes: _,
            after: _,
        } = self;
    }
}

impl Model for Script {
    ghost use Rattle.std.specs.Prelude.{List};
    ghost use Rattle.game_rules.specs.declared.change.Change.{Change};
    ghost use Rattle.game_session.specs.Changes.{IsKept};

    ghost Value = { List Change };

    ghost view = { λ s. s.changes.items };

    ghost invariant = { λ s. IsKept s.changes.items s.after.items };
}

impl Script {
    /// A script with no line: all signals are off in all frames.
    pub fn empty(alloc: Global) -> Script
        ensures { result ≡ [] }
    {
        Script {
            changes: Vec::new(alloc),
            after: Vec::new(alloc),
        }
    }

    /// The signals of a frame, in a time that grows with the logarithm of the number of lines.
    pub fn signals(&self, frame: u32) -> Signals
        ensures { result ≡ signals self.now frame }
    {
        let made = self.made_by(frame);
        if made == 0 {
            Signals::off()
        } else {
            self.after[made - 1]
        }
    }

    /// Whether two scripts have the same changes.
    pub fn is_same(&self, other: &Script) -> bool
        ensures same { IsTrue result → self.now ≡ other.now }
        ensures differs { result ≡ false → self.now ≢ other.now }
    {
        self.changes == other.changes
    }

    /// The changes, line by line.
    pub fn changes(&self) -> &[Change]
        ensures { result.now ≡ self.now }
    {
        &self.changes
    }

    /// The frame of the last change, or 0.
    pub fn last_frame(&self) -> u32
        ensures { result ≡ last_frame self.now }
    {
        match self.changes.last() {
            Some(change) => change.frame,
            None => 0,
        }
    }

    // How many changes are made up to a frame.
    fn made_by(&self, frame: u32) -> usize
        ensures within { result ≤ length self.now }
        ensures made { changed_all (take result self.now) all_off ≡ signals self.now frame }
    {
        self.changes.partition_point(|change| change.frame <= frame)
    }

    // The signals after the last change.
    fn last_signals(&self) -> Signals
        ensures { result ≡ changed_all self.now all_off }
    {
        match self.after.last() {
            Some(signals) => *signals,
            None => Signals::off(),
        }
    }

    /// Adds a change whose frame is no lower than the last, in constant time but where memory grows. Where that is refused
    /// the script is as it was.
    pub fn push(&mut self, change: Change) -> Result<(), AllocError>
        requires { last_frame self.old ≤ change.frame }
        ensures ok { IfOk result (λ _. self.new ≡ self.old ++ change ∷ []) }
        ensures err { IfErr result (λ _. self.new ≡ self.old) }
    {
        let mut signals = self.last_signals();
        signals.set(change.signal, change.on);
        self.changes.reserve(1)?;
        self.after.push(signals)?;
        self.changes.push_reserved(change);
        Ok(())
    }
}
