ghost use Rattle.std.specs.Prelude.{◌≡◌, ◌<◌, ◌≤◌, ℕ, length, nat_lt, vec_len, vec_capacity, box_value, [], true, IfOk};
ghost use Rattle.std.specs.List.{insert, position_or_len};
ghost use Rattle.board_model.specs.Stored.{parts, put_in};
ghost use Rattle.frame_state.specs.Names.{AreOfAllAgents, frame_of};
ghost use Rattle.task_board.specs.Parts.{AreInOrder};
ghost use Rattle.task_board.specs.FrameStore.{part_name};

use frame_params::{FrameParams, Gathering, LogicTask, Thought};
use game_session::Session;
use std::alloc::{AllocError, Global};
use std::marker::Model;
use std::mem;

/// What the agents thought in the frame under way, by agent number. There is room for the thoughts of all agents.
#[derive(Drop)]
pub(crate) struct Thoughts<'t> {
    session: &'t Session,
    all: Vec<Thought<'t>>,
    // Where they go once they are all there, if the turn before brought it already.
    room: Option<Box<Gathering<'t>>>,
}

impl<'t> Model for Thoughts<'t> {
    ghost use Rattle.std.specs.Prelude.{◌≡◌, ◌≤◌, [], IfSome, length, map, vec_capacity, box_value};
    ghost use Rattle.task_board.specs.Parts.{AreInOrder, AreOfGame};
    ghost use Rattle.task_board.specs.FrameStore.{PartsOf, part_name};
    ghost use Rattle.task_board.specs.FrameStoreCode.{parts_of_code};

    ghost Value = { PartsOf };

    ghost coded = { parts_of_code };

    ghost view = { λ t. record { game = t.session.now; parts = map part_name t.all.items } };

    ghost invariant = { λ t. AreOfGame t.session.now t.all.items × AreInOrder t.all.items × (length t.session.now.trees ≤ vec_capacity t.all)
        × IfSome t.room (λ r. ((box_value r).thoughts.items ≡ []) × (length t.session.now.trees ≤ vec_capacity (box_value r).thoughts)) };
}

// The place of an agent's thought: before those of later agents. Mostly agents end in their order, so it is looked for from
// the back.
fn place_for(thoughts: &[Thought], agent: u32) -> usize
    requires { AreInOrder thoughts.now }
    ensures { result ≡ position_or_len (λ x. nat_lt agent x.number) thoughts.now }
{
    'thoughts: for at in (0..thoughts.len()).rev() {
        let other = thoughts[at].agent();
        if other <= agent {
            return at + 1;
        }
    }
    0
}

// Puts a thought at a place. Mostly that is the end, where nothing has to move.
#[inline(always)]
fn put_at<'t>(thoughts: &mut Vec<Thought<'t>>, at: usize, thought: Thought<'t>)
    requires place { at ≤ vec_len thoughts.old }
    requires room { vec_len thoughts.old < vec_capacity thoughts.old }
    ensures items { thoughts.new.items ≡ insert thoughts.old.items at thought.entry }
    ensures capacity { vec_capacity thoughts.old ≤ vec_capacity thoughts.new }
{
    if at == thoughts.len() {
        thoughts.push_reserved(thought);
        return;
    }
    let Ok(()) = thoughts.insert(at, thought) else {
        unreachable!()
    };
}

impl<'t> Thoughts<'t> {
    ghost use Rattle.frame_state.specs.Names.{logic_of};

    /// None yet, with room for all.
    pub(crate) fn new(
        alloc: Global,
        session: &'t Session,
        agents: u32,
    ) -> Result<Thoughts<'t>, AllocError>
        requires { agents ≡ length session.now.trees }
        ensures { IfOk result (λ t. t ≡ record { game = session.now; parts = [] }) }
    {
        Ok(Thoughts {
            session,
            all: Vec::with_capacity(alloc, agents as usize)?,
            room: None,
        })
    }

    /// Room that is empty, for another frame's thoughts: that which the last turn brought, or else memory is taken for it.
    pub(crate) fn take_room(&mut self, alloc: Global) -> Result<Box<Gathering<'t>>, AllocError>
        ensures empty { IfOk result (λ r. (box_value r).thoughts.items ≡ []) }
        ensures room { IfOk result (λ r. length self.old.game.trees ≤ vec_capacity (box_value r).thoughts) }
        ensures unchanged { self.new ≡ self.old }
    {
        match self.room.take() {
            Some(room) => Ok(room),
            None => Ok(Gathering::with_room(alloc, self.agents())?),
        }
    }

    /// Keeps such room.
    pub(crate) fn keep_room(&mut self, room: Box<Gathering<'t>>)
        requires empty { (box_value room).thoughts.items ≡ [] }
        requires room { length self.old.game.trees ≤ vec_capacity (box_value room).thoughts }
        ensures { self.new ≡ self.old }
    {
        self.room = Some(room);
    }

    /// Moves all thoughts into such room.
    pub(crate) fn move_into(&mut self, room: &mut Gathering<'t>)
        requires empty { room.old.thoughts.items ≡ [] }
        requires room { length self.old.game.trees ≤ vec_capacity room.old.thoughts }
        ensures parts { self.new ≡ record self.old { parts = [] } }
        ensures moved { (f : ℕ) → self.old.parts ≡ parts f (length self.old.game.trees) → AreOfAllAgents (frame_of self.old.game f) room.new.thoughts.items }
        ensures found { room.new.found ≡ room.old.found }
    {
        mem::swap(&mut self.all, &mut room.thoughts);
    }

    fn agents(&self) -> usize
        ensures { result ≡ length self.now.game.trees }
    {
        self.session.world().agents().len()
    }

    pub(crate) fn clear(&mut self)
        ensures { self.new ≡ record self.old { parts = [] } }
    {
        self.all.clear();
    }

    /// Keeps a thought at its agent's place.
    pub(crate) fn keep(&mut self, thought: Thought<'t>)
        requires game { thought.game ≡ self.old.game }
        requires room { length self.old.parts < length self.old.game.trees }
        ensures { self.new ≡ record self.old { parts = put_in (part_name thought.entry) self.old.parts } }
    {
        let at = place_for(&self.all, thought.agent());
        put_at(&mut self.all, at, thought);
    }

    /// The logic of a frame, with the thoughts of all its agents.
    pub(crate) fn logic(
        &self,
        alloc: Global,
        params: &FrameParams<'t>,
    ) -> Result<LogicTask<'t>, AllocError>
        requires game { params.now.game ≡ self.now.game }
        requires all { self.now.parts ≡ parts params.now.frame (length self.now.game.trees) }
        ensures { IfOk result (λ task. task ≡ logic_of self.now.game params.now.frame true) }
    {
        LogicTask::turn(alloc, params, &self.all)
    }
}
