ghost use Rattle.std.specs.Prelude.{◌≡◌, IfOk};
ghost use Rattle.std.specs.Arc.{arc_value};
ghost use Rattle.frame_state.specs.Contents.{signals_in, way_in};
ghost use Rattle.frame_parts.specs.Distances.{IsUnderIf};

use crate::parked::{Parked, ParkedTick};
use frame_state::{DistanceField, FrameParams, FrameStart, Way};
use grid_world::{Answer, Place};
use job_core::names::JobName;
use std::alloc::{AllocError, Allocator, Global};
use std::marker::Model;
use std::sync::Arc;

/// A path question of an agent in a frame that is to be answered.
#[derive(Drop)]
pub struct PathTask<'t> {
    start: Arc<FrameStart<'t>>,
    agent: u32,
    question: u32,
    place: Place,
    // The distances to the place, where a search of the frame found them.
    found: Option<DistanceField>,
}

impl<'t> Model for PathTask<'t> {
    ghost use Rattle.std.specs.Prelude.{◌<◌, length};
    ghost use Rattle.std.specs.Arc.{arc_value};
    ghost use Rattle.frame_state.specs.Names.{QuestionOf, question_code};

    ghost Value = { QuestionOf };

    ghost coded = { question_code };

    ghost use Rattle.frame_state.specs.Contents.{signals_in};
    ghost use Rattle.frame_params.specs.Thinks.{AsksFor};
    ghost use Rattle.frame_parts.specs.Distances.{IsGivenIf};

    ghost view = { λ t. record {
      game = (arc_value t.start).game;
      frame = (arc_value t.start).frame;
      agent = t.agent;
      question = t.question;
    } };

    ghost invariant = { λ t. (t.agent < length (arc_value t.start).game.trees)
        × AsksFor (arc_value t.start).game (arc_value t.start).frame t.agent t.question t.place
        × IsGivenIf (arc_value t.start).game.world (signals_in (arc_value t.start).game (arc_value t.start).frame) t.place t.found };
}

impl<'t> PathTask<'t> {
    /// The search for the way to the place that a parked tick of the frame asks for. What it reads is the frame's own, and so
    /// are the distances to the place where they are known; nothing is copied.
    #[inline(always)]
    pub fn of(
        _alloc: Global,
        params: &FrameParams<'t>,
        parked: &Parked<'t>,
    ) -> Result<PathTask<'t>, AllocError>
        requires game { parked.now.game ≡ params.now.game }
        requires frame { parked.now.frame ≡ params.now.frame }
        ensures { IfOk result (λ t. t ≡ parked.now) }
    {
        Ok(PathTask::with(params.share()?, params, parked)?)
    }

    /// The same with what the frame starts from itself.
    #[inline(always)]
    pub fn with(
        start: Arc<FrameStart<'t>>,
        params: &FrameParams<'t>,
        parked: &Parked<'t>,
    ) -> Result<PathTask<'t>, AllocError>
        requires start { arc_value start ≡ params.now }
        requires game { parked.now.game ≡ params.now.game }
        requires frame { parked.now.frame ≡ params.now.frame }
        ensures { IfOk result (λ t. t ≡ parked.now) }
    {
        let tick: &ParkedTick<'t> = &parked.tick;
        let place = tick.place();
        Ok(PathTask {
            start,
            agent: tick.agent(),
            question: tick.question(),
            place,
            found: params.known_to(place)?,
        })
    }

    /// The job whose task it is.
    pub fn name(&self) -> JobName
        ensures { result ≡ JobName.Path self.now.frame self.now.agent self.now.question }
    {
        JobName::Path {
            frame: self.start.frame(),
            agent: self.agent,
            question: self.question,
        }
    }

    /// What its frame starts from.
    pub fn into_start(self) -> Arc<FrameStart<'t>>
        ensures { arc_value result ≡ record { game = self.entry.game; frame = self.entry.frame } }
    {
        let PathTask {
            start,
            agent: _,
            question: _,
            place: _,
            found: _found,
        } = self;
        start
    }

    // The way, and the distances if they were not known.
    fn answered<A: Allocator + Clone>(
        &self,
        alloc: Global,
        scratch: A,
    ) -> Result<(Answer, Option<DistanceField>), AllocError>
        ensures way { IfOk result (λ parts. parts.0 ≡ way_in self.now.game self.now.frame self.now.agent self.now.question) }
        ensures found { IfOk result (λ parts. IsUnderIf self.now.game.world (signals_in self.now.game self.now.frame) parts.1) }
    {
        let start: &FrameStart<'t> = &self.start;
        match &self.found {
            Some(found) => Ok((start.way_by(found, self.place, self.agent), None)),
            None => Ok(start.way_to(alloc, scratch, self.place, self.agent)?),
        }
    }

    /// Answers the question, over the world and the signals of the frame: by the distances where they are known, and else
    /// by one search, whose distances the way carries to those who want them.
    pub fn work(&self, alloc: Global) -> Result<Way<'t>, AllocError>
        ensures { IfOk result (λ way. way ≡ self.now) }
    {
        self.work_in(alloc, alloc)
    }

    /// The same, where the table and the queue of the search lie in `scratch`. From `alloc` it takes memory for the
    /// distances and for their being shared, and none where they are known.
    pub fn work_in<A: Allocator + Clone>(
        &self,
        alloc: Global,
        scratch: A,
    ) -> Result<Way<'t>, AllocError>
        ensures { IfOk result (λ way. way ≡ self.now) }
    {
        let (answer, found) = self.answered(alloc, scratch)?;
        Ok(Way::new(
            self.start.session(),
            self.start.frame(),
            self.agent,
            self.question,
            answer,
            found,
        ))
    }
}
