ghost use Rattle.std.specs.Prelude.{◌≡◌, ◌||◌, ℕ, nat_le};
ghost use Rattle.game_rules.specs.View.{is_near};
ghost use Rattle.bt_tick.specs.Views.{view_of, IsInWorld, reaches, Tells, IsNearestIn};

use crate::view::View;

/// How far away the nearest other agent of a view is, once a node has asked whether one is near: so all agents are looked
/// at once for all nodes that ask.
#[derive(Clone, Copy)]
pub(crate) enum Nearest {
    Unknown,
    /// There is no other agent.
    Alone,
    /// So many columns and rows.
    Away(u64),
}

impl Nearest {
    /// The nearer of this and another agent.
    pub(crate) fn or(self, away: u64) -> Nearest
        ensures { (n : ℕ) → reaches result n ≡ (reaches self n || nat_le away n) }
    {
        match self {
            Nearest::Away(least) => Nearest::Away(least.min(away)),
            Nearest::Unknown | Nearest::Alone => Nearest::Away(away),
        }
    }

    // Whether it is at most so many columns and rows away.
    fn reaches(self, within: u64) -> bool
        ensures { result ≡ reaches self within }
    {
        match self {
            Nearest::Away(away) => away <= within,
            Nearest::Unknown | Nearest::Alone => false,
        }
    }

    // What is known then.
    fn known(self, view: &View) -> Nearest
        requires world { IsInWorld view.now }
        requires nearest { IsNearestIn (view_of view.now) self }
        ensures { Tells (view_of view.now) result }
    {
        match self {
            Nearest::Unknown => view.nearest(),
            Nearest::Alone | Nearest::Away(_) => self,
        }
    }

    /// Whether another agent is at most so many columns and rows away.
    #[inline(always)]
    pub(crate) fn is_near(&mut self, view: &View, within: u64) -> bool
        requires world { IsInWorld view.now }
        requires nearest { IsNearestIn (view_of view.now) self.old }
        ensures near { result ≡ is_near (view_of view.now) within }
        ensures nearest { IsNearestIn (view_of view.now) self.new }
    {
        *self = self.known(view);
        self.reaches(within)
    }
}
