ghost use Rattle.std.specs.Prelude.{◌≡◌, IfSome, Some, None, true, false};
ghost use Rattle.std.specs.Option.{IsSomeAnd};
ghost use Rattle.board_model.specs.Stored.{asked};
ghost use Rattle.frame_state.specs.Names.{question_of};

use frame_params::{Parked, Way};
use game_session::Session;
use std::marker::Model;
use std::mem;

/// The question at which an agent's thought stands in the frame under way, and the answer to it.
#[derive(Drop)]
pub struct Asking<'t> {
    session: &'t Session,
    parked: Option<Parked<'t>>,
    way: Option<Way<'t>>,
}

impl<'t> Model for Asking<'t> {
    ghost use Rattle.std.specs.Prelude.{◌≡◌, Some, IfSome, is_some};
    ghost use Rattle.task_board.specs.FrameStore.{AskedOf, question_name};
    ghost use Rattle.task_board.specs.FrameStoreCode.{asked_of_code};

    ghost Value = { AskedOf };

    ghost coded = { asked_of_code };

    ghost view = { λ a. record { game = a.session.now; asked = question_name (is_some a.way) a.parked } };

    ghost invariant = { λ a. IfSome a.parked (λ parked. parked.game ≡ a.session.now) × IfSome a.way (λ way. a.parked ≡ Some way) };
}

impl<'t> Asking<'t> {
    pub(crate) fn new(session: &'t Session) -> Asking<'t>
        ensures { result ≡ record { game = session.now; asked = None } }
    {
        Asking {
            session,
            parked: None,
            way: None,
        }
    }

    /// Keeps a thought that stands at a question, and gives out the one that stood at the question before it.
    #[inline(always)]
    pub(crate) fn park(&mut self, parked: Parked<'t>) -> Option<Parked<'t>>
        requires { parked.game ≡ self.old.game }
        ensures { self.new ≡ record self.old { asked = Some (asked parked.entry.frame parked.entry.agent parked.entry.question false) } }
    {
        self.way = None;
        mem::replace(&mut self.parked, Some(parked))
    }

    /// Keeps the answer to the question.
    #[inline(always)]
    pub(crate) fn answer(&mut self, way: Way<'t>)
        requires game { way.game ≡ self.old.game }
        requires asked { self.old.asked ≡ Some (asked way.frame way.agent way.question false) }
        ensures { self.new ≡ record self.old { asked = Some (asked way.entry.frame way.entry.agent way.entry.question true) } }
    {
        self.way = Some(way);
    }

    /// The thought that stands at the question.
    #[inline(always)]
    pub(crate) fn parked(&self) -> &Parked<'t>
        requires { IsSomeAnd self.now.asked (λ q. Unit {0}) }
        ensures { IfSome self.now.asked (λ q. result.now ≡ question_of self.now.game q.frame q.agent q.question) }
    {
        match &self.parked {
            Some(parked) => parked,
            None => unreachable!(),
        }
    }

    /// The answer to the question.
    #[inline(always)]
    pub(crate) fn way(&self) -> &Way<'t>
        requires { IsSomeAnd self.now.asked (λ q. q.answered ≡ true) }
        ensures { IfSome self.now.asked (λ q. result.now ≡ question_of self.now.game q.frame q.agent q.question) }
    {
        match &self.way {
            Some(way) => way,
            None => unreachable!(),
        }
    }
}
