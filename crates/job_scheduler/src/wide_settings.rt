ghost use Rattle.std.specs.Prelude.{◌≡◌, ◌≤◌, Some, None, IfOk, IfErr, OnOk};
ghost use Rattle.job_scheduler.specs.Numbers.{settings_of, IsWithinLimits, IsWithinWideLimits};
ghost use Rattle.job_scheduler.specs.Limits.{wide_settings_fault};

use super::settings::{Settings, SettingsFault};
use std::marker::Model;

/// As `Settings`, for boards of jobs alone, which play no level: with up to 64 workers, 64 small fibers and 64 large ones.
#[derive(Clone, Copy, Debug, PartialEq, Eq)]
pub struct WideSettings {
    frames: u32,
    workers: u32,
    small: u32,
    large: u32,
    slots: u32,
}

impl Model for WideSettings {
    ghost use Rattle.job_scheduler.specs.Numbers.{Numbers, IsWithinWideLimits};

    ghost Value = { Numbers };

    ghost view = { λ s. record { frames = s.frames; workers = s.workers; small = s.small; large = s.large; slots = s.slots } };

    ghost invariant = { λ s. IsWithinWideLimits s.frames s.workers s.small s.large s.slots };

    ghost inverse = { λ n. record { frames = n.frames; workers = n.workers; small = n.small; large = n.large; slots = n.slots } };
}

impl WideSettings {
    /// Refuses the first number that is out of its limits.
    pub fn new(
        frames: u32,
        workers: u32,
        small: u32,
        large: u32,
        slots: u32,
    ) -> Result<WideSettings, SettingsFault>
        ensures value { IfOk result (λ s. s ≡ settings_of frames workers small large slots) }
        ensures ok { OnOk result (wide_settings_fault (settings_of frames workers small large slots) ≡ None) }
        ensures fault { IfErr result (λ e. Some e ≡ wide_settings_fault (settings_of frames workers small large slots)) }
    {
        if !(1..=64).contains(&workers) {
            return Err(SettingsFault::Workers);
        }
        if !((1..=64).contains(&small) && (2..=64).contains(&large)) {
            return Err(SettingsFault::Fibers);
        }
        if !(1..=16).contains(&slots) {
            return Err(SettingsFault::Slots);
        }
        if frames > 9999 {
            return Err(SettingsFault::Frames);
        }
        Ok(WideSettings {
            frames,
            workers,
            small,
            large,
            slots,
        })
    }

    /// The same numbers, which the wider limits allow too.
    pub fn of(settings: Settings) -> WideSettings
        ensures { result ≡ settings }
    {
        settings.limits_hold();
        WideSettings {
            frames: settings.frames(),
            workers: settings.workers(),
            small: settings.small(),
            large: settings.large(),
            slots: settings.slots(),
        }
    }

    /// How many frames are run, at most 9999; there may be none.
    pub fn frames(&self) -> u32
        ensures value { result ≡ self.now.frames }
        ensures most { result ≤ 9999 }
    {
        self.frames
    }

    /// How many workers there are, from 1 to 64.
    pub fn workers(&self) -> u32
        ensures value { result ≡ self.now.workers }
        ensures least { 1 ≤ result }
        ensures most { result ≤ 64 }
    {
        self.workers
    }

    /// How many small fibers there are, from 1 to 64: for the jobs that never wait.
    pub fn small(&self) -> u32
        ensures value { result ≡ self.now.small }
        ensures least { 1 ≤ result }
        ensures most { result ≤ 64 }
    {
        self.small
    }

    /// How many large fibers there are, from 2 to 64: for the jobs that may wait.
    pub fn large(&self) -> u32
        ensures value { result ≡ self.now.large }
        ensures least { 2 ≤ result }
        ensures most { result ≤ 64 }
    {
        self.large
    }

    /// How many frames may be under way at once, from 1 to 16.
    pub fn slots(&self) -> u32
        ensures value { result ≡ self.now.slots }
        ensures least { 1 ≤ result }
        ensures most { result ≤ 16 }
    {
        self.slots
    }

    /// The numbers are within their limits: for proofs, which read no private field. It does nothing.
    pub fn limits_hold(&self)
        ensures { IsWithinWideLimits self.now.frames self.now.workers self.now.small self.now.large self.now.slots }
    {
        let _ = &self.frames;
    }
}
