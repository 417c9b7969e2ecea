//! What the lines of a script say so far.
ghost use Rattle.std.specs.Prelude.{◌≡◌, ◌++◌, Some, IfOk, OnOk, []};
ghost use Rattle.std.specs.Option.{option_to_list};
ghost use Rattle.col_program.specs.Script as model;
ghost use Rattle.col_questions.specs.Questions.{question_of};
ghost use Rattle.col_lines.specs.Lines.{script_line_of, call_of, required_column_of};
ghost use Rattle.col_lines.specs.RowOrders.{row_order_of};
ghost use Rattle.col_script.specs.Scripts.{no_parts, draft_parts, summary_of, summary_with, TakesLine, TakesPiece};

use crate::script::Script;
use crate::segment::Segment;
use col_lines::{Call, Line, RowOrder, read_line};
use col_questions::Question;
use col_types::ColumnType;
use json::Scratch;
use std::alloc::{AllocError, Global};

/// What the lines so far say.
#[derive(Drop)]
pub struct Draft {
    earlier: Vec<Segment>,
    last: Option<Segment>,
    required: Vec<(String, ColumnType)>,
    order: Option<RowOrder>,
    questions: Vec<Question>,
}

impl Draft {
    /// Before any line.
    pub fn new(alloc: Global) -> Draft
        ensures { draft_parts result ≡ no_parts }
    {
        Draft {
            earlier: Vec::new(alloc),
            last: None,
            required: Vec::new(alloc),
            order: None,
            questions: Vec::new(alloc),
        }
    }

    /// Takes the line that a piece spells, or tells that no script has it here.
    pub fn take_piece(
        &mut self,
        alloc: Global,
        scratch: &mut Scratch,
        piece: &[u8],
    ) -> Result<bool, AllocError>
        ensures { IfOk result (TakesPiece piece.now self.old self.new) }
    {
        if piece.is_empty() {
            return Ok(true);
        }
        match read_line(alloc, scratch, piece)? {
            Some(line) => self.take(alloc, line),
            None => Ok(false),
        }
    }

    fn take(&mut self, alloc: Global, line: Line) -> Result<bool, AllocError>
        ensures { IfOk result (TakesLine (script_line_of line) self.old self.new) }
    {
        match line {
            Line::Segment(num_docs) => self.take_segment(alloc, num_docs),
            Line::Record(call) => self.take_call(call),
            Line::Require { name, column_type } => self.take_required(name, column_type),
            Line::Order(order) => Ok(self.take_order(order)),
            Line::Ask(question) => self.take_question(question),
        }
    }

    fn take_segment(&mut self, alloc: Global, num_docs: u32) -> Result<bool, AllocError>
        ensures { IfOk result (TakesLine (model.segment num_docs) self.old self.new) }
    {
        let last = self.last.replace(Segment::new(alloc, num_docs));
        add_last(&mut self.earlier, last)?;
        Ok(true)
    }

    fn take_call(&mut self, call: Call) -> Result<bool, AllocError>
        ensures { IfOk result (TakesLine (model.call (call_of call)) self.old self.new) }
    {
        let Some(segment) = &mut self.last else {
            return Ok(false);
        };
        segment.record(&call)?;
        Ok(true)
    }

    fn take_required(&mut self, name: String, column_type: ColumnType) -> Result<bool, AllocError>
        ensures { IfOk result
            (TakesLine (model.require (required_column_of (name, column_type))) self.old self.new) }
    {
        self.required.push((name, column_type))?;
        Ok(true)
    }

    fn take_order(&mut self, order: RowOrder) -> bool
        ensures { TakesLine (model.order (row_order_of order)) self.old self.new result }
    {
        if self.order.is_some() {
            return false;
        }
        self.order = Some(order);
        true
    }

    fn take_question(&mut self, question: Question) -> Result<bool, AllocError>
        ensures { IfOk result (TakesLine (model.ask (question_of question)) self.old self.new) }
    {
        self.questions.push(question)?;
        Ok(true)
    }

    /// The script, if no lines are behind the draft.
    pub fn finish(self) -> Result<Script, AllocError>
        ensures { IfOk result
            (λ script. summary_with (draft_parts self) [] ≡ Some (summary_of script)) }
    {
        let Draft {
            mut earlier,
            last,
            required,
            order,
            questions,
        } = self;
        add_last(&mut earlier, last)?;
        Ok(Script {
            segments: earlier,
            required,
            order,
            questions,
        })
    }
}

// Adds the last segment, if there is one.
fn add_last(segments: &mut Vec<Segment>, last: Option<Segment>) -> Result<(), AllocError>
    ensures { OnOk result (segments.new.items ≡ segments.old.items ++ option_to_list last) }
{
    let Some(segment) = last else {
        return Ok(());
    };
    segments.push(segment)?;
    Ok(())
}
