//! Which step of a plan each line of a stream is of.
//!
//! Every `Err` means that memory was refused.

ghost use Rattle.std.specs.Prelude.{◌≡◌, IfOk, OnOk};
ghost use Rattle.std.specs.Option.{option_copied};
ghost use Rattle.stream_record_steps.specs.Begun.{begun_at, none_begun};
ghost use Rattle.stream_record_steps.specs.Starts.{after_start, first_known, with_begun};
ghost use Rattle.stream_record_steps.specs.Steps.{planned_steps};
ghost use Rattle.stream_record_steps.specs.Taken.{after_end_at, after_progress, after_provisioner, after_stage, after_step};
ghost use Rattle.stream_record_steps.specs.UnderWay.{after_fact, with_odd};

use crate::begun_step::{BegunStep, EndResult, StepEnd};
use crate::plan_index::PlanIndex;
use crate::planned_step::PlannedStep;
use crate::slots::Slots;
use crate::starts::taken_place;
use crate::step_facts::{Stated, StepFact, StepFacts, stated_by};
use crate::strays::{Stray, Strays};
use crate::tally::{Tally, no_lines, with_line};
use crate::under_way::{provisioned_place, timed_place};
use apply_model::{Plan, StepKind, Text};
use std::alloc::{AllocError, Global};
use std::marker::Model;
use stream_record_lines::{Provisioner, Step, StepStage};

/// What the lines of a stream state of the steps of a plan.
///
/// The caller numbers the lines, each with a greater number than the one before.
#[derive(Drop)]
pub struct BegunSteps<'a> {
    alloc: Global,
    planned: PlanIndex<'a>,
    by_step: Slots,
    begins: Vec<usize>,
    ends: Vec<usize>,
    strays: Strays,
    odd: Tally,
    latest: Option<u64>,
    most: usize,
    has_starts: bool,
}

impl<'a> Model for BegunSteps<'a> {
    ghost use Rattle.stream_record_steps.specs.Begun.{Begun};

    ghost Value = { Begun };

    ghost view = { λ it. record {
      planned = it.planned;
      by_step = it.by_step;
      begins = it.begins.items;
      ends = it.ends.items;
      strays = it.strays;
      odd = it.odd;
      latest = it.latest;
      most = it.most;
      has_starts = it.has_starts;
    } };
}

impl<'a> BegunSteps<'a> {
    /// No step of the plan began yet.
    pub fn new(alloc: Global, plan: &'a Plan) -> Result<BegunSteps<'a>, AllocError>
        ensures { IfOk result (λ begun. begun ≡ none_begun (planned_steps plan.now.changes)) }
    {
        let planned = PlanIndex::new(alloc, plan)?;
        let by_step = Slots::new(alloc, planned.as_slice())?;
        Ok(BegunSteps {
            alloc,
            planned,
            by_step,
            begins: Vec::new(alloc),
            ends: Vec::new(alloc),
            strays: Strays::new(alloc),
            odd: no_lines(),
            latest: None,
            most: 0,
            has_starts: false,
        })
    }

    /// Takes a message about a step, on this line and of this second.
    pub fn take_step(&mut self, line: u64, second: i64, step: Step) -> Result<(), AllocError>
        ensures { OnOk result (self.new ≡ after_step line second step self.old) }
    {
        let Step {
            address,
            kind,
            stage,
        } = step;
        self.take_stage(line, second, kind, address, stage)?;
        self.latest = Some(line);
        Ok(())
    }

    /// Takes a stage of a step, on this line and of this second.
    fn take_stage(
        &mut self,
        line: u64,
        second: i64,
        kind: StepKind,
        address: Text,
        stage: StepStage,
    ) -> Result<(), AllocError>
        ensures { OnOk result (self.new ≡ after_stage line second kind address stage self.old) }
    {
        match stage {
            StepStage::Began { id } => self.start(line, second, kind, address, id),
            StepStage::Progress { seconds } => self.progress(
                line,
                second,
                kind,
                address.as_str(),
                seconds,
            ),
            StepStage::Completed {
                seconds,
                id_key,
                id,
            } => {
                let result = EndResult::Completed { id_key, id };
                self.end(
                    second,
                    kind,
                    address.as_str(),
                    StepEnd {
                        line,
                        seconds,
                        result,
                    },
                )
            }
            StepStage::Failed { seconds } => {
                let result = EndResult::Failed;
                self.end(
                    second,
                    kind,
                    address.as_str(),
                    StepEnd {
                        line,
                        seconds,
                        result,
                    },
                )
            }
        }
    }

    /// Takes the start of a step.
    fn start(
        &mut self,
        line: u64,
        second: i64,
        kind: StepKind,
        address: Text,
        id: Option<Text>,
    ) -> Result<(), AllocError>
        ensures { OnOk result (self.new ≡ after_start line second kind address id self.old) }
    {
        self.has_starts = true;
        let steps = self.planned.at(address.as_str());
        match taken_place(&self.by_step, kind, id.as_ref().map(Text::as_str), steps) {
            Some(place) => self.begin(line, second, kind, place),
            None => self.strays.add(Stray {
                line,
                kind,
                address,
            }),
        }
    }

    /// The step at the place begins.
    fn begin(
        &mut self,
        line: u64,
        second: i64,
        kind: StepKind,
        place: usize,
    ) -> Result<(), AllocError>
        ensures { OnOk result (self.new ≡ with_begun place (first_known line second kind self.old.latest) self.old) }
    {
        self.begins.push(place)?;
        let step = BegunStep {
            kind,
            line,
            second,
            previous: self.latest,
            facts: StepFacts::new(self.alloc),
            end: None,
        };
        self.by_step.begin(place, step);
        self.most = self.most.max(self.by_step.busy());
        Ok(())
    }

    /// Takes progress of a step.
    fn progress(
        &mut self,
        line: u64,
        second: i64,
        kind: StepKind,
        address: &str,
        seconds: u64,
    ) -> Result<(), AllocError>
        ensures { OnOk result (self.new ≡ after_progress line second kind address.now seconds self.old) }
    {
        let place = timed_place(
            &self.by_step,
            kind,
            seconds,
            second,
            self.planned.at(address),
        );
        let stated = Stated::Progress { seconds };
        self.add_fact(line, place, StepFact { second, stated })
    }

    /// Takes the end of a step.
    fn end(
        &mut self,
        second: i64,
        kind: StepKind,
        address: &str,
        end: StepEnd,
    ) -> Result<(), AllocError>
        ensures { OnOk result (self.new ≡ after_end_at second kind address.now end self.old) }
    {
        match timed_place(
            &self.by_step,
            kind,
            end.seconds,
            second,
            self.planned.at(address),
        ) {
            Some(place) => {
                self.ends.push(place)?;
                self.by_step.end(place, end);
            }
            None => self.odd = with_line(self.odd, end.line),
        }
        Ok(())
    }

    /// Adds a fact about the step at the place. The line is odd if there is none.
    fn add_fact(
        &mut self,
        line: u64,
        place: Option<usize>,
        fact: StepFact,
    ) -> Result<(), AllocError>
        ensures { OnOk result (self.new ≡ after_fact line fact place self.old) }
    {
        match place {
            Some(place) => self.by_step.add_fact(place, fact),
            None => {
                self.odd = with_line(self.odd, line);
                Ok(())
            }
        }
    }

    /// Takes a message about a provisioner, on this line and of this second.
    pub fn take_provisioner(
        &mut self,
        line: u64,
        second: i64,
        provisioner: Provisioner,
    ) -> Result<(), AllocError>
        ensures { OnOk result (self.new ≡ after_provisioner line second provisioner self.old) }
    {
        let Provisioner {
            address,
            name,
            stage,
        } = provisioner;
        let place = provisioned_place(&self.by_step, self.planned.at(address.as_str()));
        let stated = stated_by(name, stage);
        self.add_fact(line, place, StepFact { second, stated })
    }

    /// Counts a line that lacks a member.
    pub fn take_malformed(&mut self, line: u64)
        ensures { self.new ≡ with_odd line self.old }
    {
        self.odd = with_line(self.odd, line);
    }

    /// The steps of the plan, in its order.
    pub fn planned(&self) -> &[PlannedStep<'a>]
        ensures { result.now ≡ self.now.planned }
    {
        self.planned.as_slice()
    }

    /// What the lines state of the step at a place. `None` if it did not begin.
    pub fn step(&self, place: usize) -> Option<&BegunStep>
        ensures { option_copied result ≡ begun_at self.now.by_step place }
    {
        self.by_step.get(place)
    }

    /// The places of the steps that began, in the order of their starts.
    pub fn begins(&self) -> &[usize]
        ensures { result.now ≡ self.now.begins }
    {
        self.begins.as_slice()
    }

    /// The places of the steps that ended, in the order of their ends.
    pub fn ends(&self) -> &[usize]
        ensures { result.now ≡ self.now.ends }
    {
        self.ends.as_slice()
    }

    /// The starts of no step of the plan: the first of each kind and address.
    pub fn strays(&self) -> &[Stray]
        ensures { result.now ≡ self.now.strays }
    {
        self.strays.as_slice()
    }

    /// The lines that are malformed, or of no step that is under way.
    pub fn odd(&self) -> Tally
        ensures { result ≡ self.now.odd }
    {
        self.odd
    }

    /// The most creates, updates and deletes that were under way at once.
    pub fn most(&self) -> usize
        ensures { result ≡ self.now.most }
    {
        self.most
    }

    /// Whether there was a start, of a step of the plan or not.
    pub fn has_starts(&self) -> bool
        ensures { result ≡ self.now.has_starts }
    {
        self.has_starts
    }
}
