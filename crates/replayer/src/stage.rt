ghost use Rattle.std.specs.Prelude.{◌≡◌, vec_len, length};
ghost use Rattle.script_check.specs.Validity.{IsValid};
ghost use Rattle.object_set.specs.ObjectSets.{IsSetOf};
ghost use Rattle.script_meaning.specs.Explains.{rid_of};
ghost use Rattle.replayer.specs.Differences.{is_same_response};
ghost use Rattle.replayer.specs.Standings.{AreOpened};

use crate::open_request::OpenRequest;
use crate::reason::{Reason, ReplayReason};
use crate::runner::{Next, Runner};
use crate::standing::{Standing, all_away, first_not_departed, first_waiting, put_answer};
use basis::OrMemory;
use object_set::{ObjectSet, Refused};
use period::schedule::Moment;
use script_check::lookup::Index;
use script_tree::operation::{Choice, Op};
use script_tree::request::Response;
use std::alloc::{AllocError, Global};
use trace_index::IndexedTrace;

/// What is kept between two moments of a schedule.
#[derive(Drop)]
pub struct Stage<'a, 'p> {
    index: &'a Index<'p>,
    trace: IndexedTrace<'a>,
    objects: ObjectSet,
    /// How each request stands, at its place in the trace.
    standings: Vec<Standing>,
    /// The place in the trace of the first response whose request has not departed.
    waiting: usize,
    ghost valid: { IsValid index.now },
    ghost set: { IsSetOf index.now objects },
    ghost sized: { vec_len standings ≡ length trace },
    ghost opened: { AreOpened index.now trace standings.items },
}

impl<'a, 'p> Stage<'a, 'p> {
    ghost use Rattle.std.specs.Prelude.{◌≡◌, Some, IfOk};
    ghost use Rattle.period.specs.declared.schedule.Moment.TheVariants.{Arrive, Act, Depart};
    ghost use Rattle.replayer.specs.Differences.{first_not_departed};
    ghost use Rattle.script_fit.specs.FitsOperation.{FitsOperation};
    ghost use Rattle.trace_index.specs.Places.{IsRequestPlace};
    ghost use Rattle.replayer.specs.declared.runner.Next.TheVariants.{Wants, Ends};
    ghost use Rattle.replayer.specs.Stages.{Opens, IsStageOf, Steps, StepsAt, NextAt, WantsWhatFits, departed_of};

    /// Before the first moment, where the objects hold this.
    pub fn new(
        alloc: Global,
        index: &'a Index<'p>,
        start: ObjectSet,
        trace: IndexedTrace<'a>,
    ) -> Result<Stage<'a, 'p>, AllocError>
        requires { IsSetOf index.now start }
        ensures { IfOk result (Opens index.now start trace.entry) }
    {
        let _declarations = index.program().declarations();
        let standings = all_away(alloc, trace.len())?;
        let waiting = first_waiting(&trace, &standings, 0);
        Ok(Stage {
            index,
            trace,
            objects: start,
            standings,
            waiting,
        })
    }

    /// Plays a moment, or tells why it is not one of the trace.
    pub fn step<R: Runner>(
        &mut self,
        alloc: Global,
        runner: &R,
        moment: Moment,
    ) -> Result<Option<Reason>, AllocError>
        ensures step { IfOk result (Steps moment self.old self.new) }
        ensures same { IsStageOf self.old.index.now self.old.trace self.new }
    {
        let Some(place) = self.trace.place(rid_of(moment)) else {
            return Ok(Some(Reason::UnknownRequest));
        };
        match moment {
            Moment::Arrive(_) => self.arrive(alloc, place),
            Moment::Act(_, choice) => self.act(alloc, runner, place, choice),
            Moment::Depart(_) => self.depart(alloc, runner, place),
        }
    }

    fn arrive(&mut self, alloc: Global, place: usize) -> Result<Option<Reason>, AllocError>
        requires { IsRequestPlace self.old.trace place }
        ensures step { IfOk result (StepsAt place (λ r. Arrive r) self.old self.new) }
        ensures same { IsStageOf self.old.index.now self.old.trace self.new }
    {
        let Standing::Away = &self.standings[place] else {
            return Ok(Some(Reason::SecondArrival));
        };
        if self.waiting < place {
            return Ok(Some(Reason::TooEarly));
        }
        let request = self.trace.request(alloc, place)?;
        self.standings[place] = Standing::Open(OpenRequest::new(alloc, request)?);
        Ok(None)
    }

    fn act<R: Runner>(
        &mut self,
        alloc: Global,
        runner: &R,
        place: usize,
        choice: Choice,
    ) -> Result<Option<Reason>, AllocError>
        requires { IsRequestPlace self.old.trace place }
        ensures step { IfOk result (StepsAt place (λ r. Act r choice) self.old self.new) }
        ensures same { IsStageOf self.old.index.now self.old.trace self.new }
    {
        match self.next_at(alloc, runner, place)? {
            Some(Next::Wants(op)) => self.act_on(place, &op, choice),
            Some(Next::Ends(_)) => Ok(Some(Reason::RunEnds)),
            None => Ok(Some(Reason::NotOpen)),
        }
    }

    /// The request that stands here does the operation that it wants.
    fn act_on(
        &mut self,
        place: usize,
        op: &Op,
        choice: Choice,
    ) -> Result<Option<Reason>, AllocError>
        requires place { IsRequestPlace self.old.trace place }
        requires next { NextAt place self.old (Some (Wants op.now)) }
        requires fits { FitsOperation self.old.index.now op.now }
        ensures step { IfOk result (StepsAt place (λ r. Act r choice) self.old self.new) }
        ensures same { IsStageOf self.old.index.now self.old.trace self.new }
    {
        let answer = match self.objects.apply(op, choice) {
            Ok(answer) => answer,
            Err(OrMemory::Other(Refused)) => return Ok(Some(Reason::BadChoice)),
            Err(OrMemory::Memory) => return Err(AllocError),
        };
        put_answer(&mut self.standings, place, answer)?;
        Ok(None)
    }

    fn depart<R: Runner>(
        &mut self,
        alloc: Global,
        runner: &R,
        place: usize,
    ) -> Result<Option<Reason>, AllocError>
        requires { IsRequestPlace self.old.trace place }
        ensures step { IfOk result (StepsAt place (λ r. Depart r) self.old self.new) }
        ensures same { IsStageOf self.old.index.now self.old.trace self.new }
    {
        match self.next_at(alloc, runner, place)? {
            Some(Next::Ends(response)) => self.depart_with(alloc, place, &response),
            Some(Next::Wants(_)) => Ok(Some(Reason::WantsOperation)),
            None => Ok(Some(Reason::NotOpen)),
        }
    }

    /// The request that stands here departs with this response, if that is the traced one.
    fn depart_with(
        &mut self,
        alloc: Global,
        place: usize,
        response: &Response,
    ) -> Result<Option<Reason>, AllocError>
        requires place { IsRequestPlace self.old.trace place }
        requires next { NextAt place self.old (Some (Ends response.now)) }
        ensures step { IfOk result (StepsAt place (λ r. Depart r) self.old self.new) }
        ensures same { IsStageOf self.old.index.now self.old.trace self.new }
    {
        let traced = self.trace.response(alloc, place)?;
        if !is_same_response(response, &traced) {
            return Ok(Some(Reason::OtherResponse));
        }
        self.standings[place] = Standing::Departed;
        self.waiting = first_waiting(&self.trace, &self.standings, self.waiting);
        Ok(None)
    }

    /// What the request that stands here does next, where it is open.
    fn next_at<R: Runner>(
        &self,
        alloc: Global,
        runner: &R,
        place: usize,
    ) -> Result<Option<Next>, AllocError>
        requires { IsRequestPlace self.now.trace place }
        ensures next { IfOk result (NextAt place self.now) }
        ensures fits { IfOk result (WantsWhatFits self.now) }
    {
        let Standing::Open(open) = &self.standings[place] else {
            return Ok(None);
        };
        let request = open.request();
        request.keeps_limits();
        let next = runner.next(alloc, self.index, request, open.answers())?;
        Ok(Some(next))
    }

    /// After the last moment: the first request of the trace that has not departed.
    pub fn first_not_departed(&self) -> Option<ReplayReason>
        ensures { result ≡ first_not_departed (departed_of self.now) self.now.trace }
    {
        first_not_departed(&self.trace, &self.standings)
    }
}

/// The request that a moment is about.
pub fn rid_of(moment: Moment) -> u32
    ensures { result ≡ rid_of moment }
{
    match moment {
        Moment::Arrive(rid) | Moment::Act(rid, _) | Moment::Depart(rid) => rid,
    }
}

fn is_same_response(response: &Response, traced: &Option<Response>) -> bool
    ensures { result ≡ is_same_response response.now traced.now }
{
    match traced {
        Some(traced) => {
            response.status == traced.status && response.body.as_bytes() == traced.body.as_bytes()
        }
        None => false,
    }
}
