//! What the lines of a set's script say so far.
ghost use Rattle.std.specs.Prelude.{◌≡◌, ◌++◌, Some, IfOk, OnOk, map, []};
ghost use Rattle.col_lines.specs.Lines.{call_of};
ghost use Rattle.col_set_script.specs.SetScripts as model;
ghost use Rattle.col_set_script.specs.Lines.{set_line_of};
ghost use Rattle.col_set_script.specs.Steps.{step_of};
ghost use Rattle.col_set_script.specs.Drafts.{no_parts, draft_parts, steps_with, added_of, TakesLine, TakesPiece, TakesStep};

use crate::set_line::{SetLine, read_set_line};
use crate::step::Step;
use col_lines::Call;
use col_script::Segment;
use json::Scratch;
use std::alloc::{AllocError, Global};

// What the lines so far say: the steps, and the segment into which records go.
#[derive(Drop)]
pub(crate) struct Draft {
    steps: Vec<Step>,
    current: Option<Segment>,
}

impl Draft {
    // Before any line.
    pub(crate) fn new(alloc: Global) -> Draft
        ensures { draft_parts result ≡ no_parts }
    {
        Draft {
            steps: Vec::new(alloc),
            current: None,
        }
    }

    // Takes the line that a piece spells, or tells that no script has it here.
    pub(crate) fn take_piece(
        &mut self,
        alloc: Global,
        scratch: &mut Scratch,
        piece: &[u8],
    ) -> Result<bool, AllocError>
        ensures { IfOk result (TakesPiece piece.now self.old self.new) }
    {
        if piece.is_empty() {
            return Ok(true);
        }
        match read_set_line(alloc, scratch, piece)? {
            Some(line) => self.take(alloc, line),
            None => Ok(false),
        }
    }

    fn take(&mut self, alloc: Global, line: SetLine) -> Result<bool, AllocError>
        ensures { IfOk result (TakesLine (set_line_of line) self.old self.new) }
    {
        match line {
            SetLine::Segment(num_docs) => self.take_segment(alloc, num_docs),
            SetLine::Record(call) => self.take_call(call),
            SetLine::Drop(ids) => self.take_step(Step::Drop(ids)),
            SetLine::Compact => self.take_step(Step::Compact),
            SetLine::Find(lookup) => self.take_step(Step::Find(lookup)),
        }
    }

    fn take_segment(&mut self, alloc: Global, num_docs: u32) -> Result<bool, AllocError>
        ensures { IfOk result (TakesLine (model.start num_docs) self.old self.new) }
    {
        let ended = self.current.replace(Segment::new(alloc, num_docs));
        add_segment(&mut self.steps, ended)?;
        Ok(true)
    }

    fn take_call(&mut self, call: Call) -> Result<bool, AllocError>
        ensures { IfOk result (TakesLine (model.call (call_of call)) self.old self.new) }
    {
        let Some(segment) = &mut self.current else {
            return Ok(false);
        };
        segment.record(&call)?;
        Ok(true)
    }

    // Takes a step, for which the segment ends.
    fn take_step(&mut self, step: Step) -> Result<bool, AllocError>
        ensures { IfOk result (TakesStep (step_of step) self.old self.new) }
    {
        let ended = self.current.take();
        add_segment(&mut self.steps, ended)?;
        self.steps.push(step)?;
        Ok(true)
    }

    // The steps, if no lines are behind the draft.
    #[tactic(auto, unfolding(crate::specs::Drafts::steps_with))]
    pub(crate) fn finish(self) -> Result<Vec<Step>, AllocError>
        ensures { IfOk result
            (λ steps. steps_with (draft_parts self) [] ≡ Some (map step_of steps.items)) }
    {
        let Draft { mut steps, current } = self;
        add_segment(&mut steps, current)?;
        Ok(steps)
    }
}

// Adds the segment that ended, if there is one.
fn add_segment(steps: &mut Vec<Step>, ended: Option<Segment>) -> Result<(), AllocError>
    ensures { OnOk result (steps.new.items ≡ steps.old.items ++ added_of ended) }
{
    let Some(segment) = ended else {
        return Ok(());
    };
    steps.push(Step::Add(segment))?;
    Ok(())
}
