ghost use Rattle.std.specs.Prelude.{◌≡◌, ◌≤◌, Some, None, IfOk, IfErr, OnOk};
ghost use Rattle.job_scheduler.specs.Numbers.{settings_of, IsWithinLimits};
ghost use Rattle.job_scheduler.specs.Limits.{settings_fault};

use super::wide_settings::WideSettings;
use std::marker::Model;

/// The first number that is out of its limits, in this order.
#[derive(Clone, Copy, Debug, PartialEq, Eq)]
pub enum SettingsFault {
    /// Not from 1 to 16 workers, or to 64 of wide settings.
    Workers,
    /// Not from 1 to 16 small fibers, or not from 2 to 63 large ones; of wide settings, either to 64.
    Fibers,
    /// Not from 1 to 16 slots.
    Slots,
    /// More than 9999 frames.
    Frames,
}

/// How many frames are run, by how many workers, on how many fibers of each size, and how many frames may be under way at once.
#[derive(Clone, Copy, Debug, PartialEq, Eq)]
pub struct Settings {
    frames: u32,
    workers: u32,
    small: u32,
    large: u32,
    slots: u32,
}

impl Model for Settings {
    ghost use Rattle.job_scheduler.specs.Numbers.{Numbers, IsWithinLimits};

    ghost Value = { Numbers };

    ghost view = { λ s. record { frames = s.frames; workers = s.workers; small = s.small; large = s.large; slots = s.slots } };

    ghost invariant = { λ s. IsWithinLimits s.frames s.workers s.small s.large s.slots };

    ghost inverse = { λ n. record { frames = n.frames; workers = n.workers; small = n.small; large = n.large; slots = n.slots } };
}

impl Settings {
    /// Refuses the first number that is out of its limits.
    pub fn new(
        frames: u32,
        workers: u32,
        small: u32,
        large: u32,
        slots: u32,
    ) -> Result<Settings, SettingsFault>
        ensures value { IfOk result (λ s. s ≡ settings_of frames workers small large slots) }
        ensures ok { OnOk result (settings_fault (settings_of frames workers small large slots) ≡ None) }
        ensures fault { IfErr result (λ e. Some e ≡ settings_fault (settings_of frames workers small large slots)) }
    {
        if !(1..=16).contains(&workers) {
            return Err(SettingsFault::Workers);
        }
        if !((1..=16).contains(&small) && (2..=63).contains(&large)) {
            return Err(SettingsFault::Fibers);
        }
        if !(1..=16).contains(&slots) {
            return Err(SettingsFault::Slots);
        }
        if frames > 9999 {
            return Err(SettingsFault::Frames);
        }
        Ok(Settings {
            frames,
            workers,
            small,
            large,
            slots,
        })
    }

    // Those of wide settings that are within the limits of these.
    pub(crate) fn of_wide(settings: WideSettings) -> Settings
        requires { IsWithinLimits settings.frames settings.workers settings.small settings.large settings.slots }
        ensures { result ≡ settings }
    {
        Settings {
            frames: settings.frames(),
            workers: settings.workers(),
            small: settings.small(),
            large: settings.large(),
            slots: settings.slots(),
        }
    }

    /// How many frames are run, at most 9999; there may be none.
    pub fn frames(&self) -> u32
        ensures value { result ≡ self.now.frames }
        ensures most { result ≤ 9999 }
    {
        self.frames
    }

    /// How many workers there are, from 1 to 16.
    pub fn workers(&self) -> u32
        ensures value { result ≡ self.now.workers }
        ensures least { 1 ≤ result }
        ensures most { result ≤ 16 }
    {
        self.workers
    }

    /// How many small fibers there are, from 1 to 16: for the jobs that never wait.
    pub fn small(&self) -> u32
        ensures value { result ≡ self.now.small }
        ensures least { 1 ≤ result }
        ensures most { result ≤ 16 }
    {
        self.small
    }

    /// How many large fibers there are, from 2 to 63: for the jobs that may wait.
    pub fn large(&self) -> u32
        ensures value { result ≡ self.now.large }
        ensures least { 2 ≤ result }
        ensures most { result ≤ 63 }
    {
        self.large
    }

    /// How many frames may be under way at once, from 1 to 16.
    pub fn slots(&self) -> u32
        ensures value { result ≡ self.now.slots }
        ensures least { 1 ≤ result }
        ensures most { result ≤ 16 }
    {
        self.slots
    }

    /// The numbers are within their limits: for proofs, which read no private field. It does nothing.
    pub fn limits_hold(&self)
        ensures { IsWithinLimits self.now.frames self.now.workers self.now.small self.now.large self.now.slots }
    {
        let _ = &self.frames;
    }
}
