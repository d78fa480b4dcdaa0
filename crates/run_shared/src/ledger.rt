use std::marker::Brand;
use std::sync::ledger::Ledger;

/// The ledger of a run, which says what is played and by which numbers. Whoever opens it picks both.
pub trait RunLedger: Ledger {
    ghost use Rattle.std.specs.Prelude.{Option};
    ghost use Rattle.game_rules.specs.Game.{Game};
    ghost use Rattle.job_scheduler.specs.Numbers.{Numbers};

    ghost game: { Option Game };

    ghost numbers: { Option Numbers };
}

impl RunLedger for Brand {
    ghost use Rattle.std.specs.Prelude.{None};

    ghost game = { None };

    ghost numbers = { None };
}
