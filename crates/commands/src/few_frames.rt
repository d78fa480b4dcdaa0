ghost use Rattle.std.specs.Prelude.{◌≡◌};
ghost use Rattle.job_scheduler.specs.Numbers.{settings_of};

use job_scheduler::Settings;

/// How a level from standard input is played.
pub fn few_frames() -> Settings
    ensures { result ≡ settings_of 3 1 8 8 3 }
{
    match Settings::new(3, 1, 8, 8, 3) {
        Ok(settings) => settings,
        Err(_) => unreachable!(),
    }
}
