//! Runs the steps of a query over open columns.
ghost use Rattle.std.specs.Prelude.{◌≡◌, ◌&&◌, ℕ, List, false, IsTrue, Some, IfOk, OnOk};
ghost use Rattle.col_model.specs.Table.{Table};
ghost use Rattle.col_opened.specs.Opened.{AreOpen};
ghost use Rattle.col_program.specs.Queries as definitions;
ghost use Rattle.col_program.specs.Queries.{holds};
ghost use Rattle.col_query.specs.Sets.{IsSetOf};
ghost use Rattle.col_query.specs.Stacks.{AreSetsOf};
ghost use Rattle.col_questions.specs.Steps.{tree_of, step_taken, has_ends, end_of, is_end_of, AreSteps};
ghost use Rattle.col_types.specs.Kinds.{kind_of};

use crate::doc_set::DocSet;
use crate::find::{docs_between, docs_with_value};
use crate::stack::{join_top, no_members, put_set, turn_top};
use col_common::FileHandle;
use col_file::ColumnarReader;
use col_opened::OpenColumns;
use col_questions::{QueryValue, Step};
use col_types::ColumnType;
use std::alloc::{AllocError, Global};

// The set that the steps of a query leave.
pub(crate) fn run_steps<F: FileHandle>(
    alloc: Global,
    reader: &ColumnarReader<F>,
    columns: &OpenColumns,
    steps: &[Step],
) -> Result<DocSet, AllocError>
    requires { AreSteps steps.now }
    ensures { (t : Table) → AreOpen reader.now.keys t columns.now
        → IfOk result (IsSetOf t.row_count (holds t (tree_of steps.now))) }
{
    let mut sets = Vec::new(alloc);
    for step in steps {
        take_step(alloc, reader, columns, step, &mut sets)?;
    }
    match sets.pop() {
        Some(set) => Ok(set),
        None => Ok(DocSet::all(alloc)),
    }
}

// Takes one step.
fn take_step<F: FileHandle>(
    alloc: Global,
    reader: &ColumnarReader<F>,
    columns: &OpenColumns,
    step: &Step,
    sets: &mut Vec<DocSet>,
) -> Result<(), AllocError>
    requires { IsTrue (has_ends step.now) }
    ensures { (t : Table) (old new : List definitions.Query)
        → AreOpen reader.now.keys t columns.now → AreSetsOf t old sets.old.items
        → step_taken step.now old ≡ Some new → OnOk result (AreSetsOf t new sets.new.items) }
{
    match step {
        Step::All => put_set(sets, DocSet::all(alloc)),
        Step::Has { name, column_type } => {
            let set = docs_of_has(alloc, reader, columns, name, *column_type)?;
            put_set(sets, set)
        }
        Step::Range {
            name,
            column_type,
            lo,
            hi,
        } => {
            let set = docs_of_range(alloc, reader, columns, name, *column_type, lo, hi)?;
            put_set(sets, set)
        }
        Step::Not => turn_top(sets),
        Step::Begin(joint) => put_set(sets, no_members(alloc, *joint)),
        Step::Join(joint) => join_top(alloc, sets, *joint, reader.num_docs()),
    }
}

// The documents with a value of the column of a name and a type.
fn docs_of_has<F: FileHandle>(
    alloc: Global,
    reader: &ColumnarReader<F>,
    columns: &OpenColumns,
    name: &str,
    column_type: ColumnType,
) -> Result<DocSet, AllocError>
    ensures { (t : Table) → AreOpen reader.now.keys t columns.now → IfOk result
        (IsSetOf t.row_count (holds t (definitions.has name.now (kind_of column_type)))) }
{
    match columns.get(reader, name, column_type) {
        Some(column) => docs_with_value(alloc, column, reader.num_docs()),
        None => Ok(no_column(alloc)),
    }
}

// The documents with a value of that column from one end to the other.
fn docs_of_range<F: FileHandle>(
    alloc: Global,
    reader: &ColumnarReader<F>,
    columns: &OpenColumns,
    name: &str,
    column_type: ColumnType,
    lo: &QueryValue,
    hi: &QueryValue,
) -> Result<DocSet, AllocError>
    requires { IsTrue (is_end_of (kind_of column_type) (end_of lo.now)
        && is_end_of (kind_of column_type) (end_of hi.now)) }
    ensures { (t : Table) → AreOpen reader.now.keys t columns.now → IfOk result
        (IsSetOf t.row_count (holds t (definitions.range name.now (kind_of column_type)
        (end_of lo.now) (end_of hi.now)))) }
{
    match columns.get(reader, name, column_type) {
        Some(column) => docs_between(alloc, column, lo, hi, reader.num_docs()),
        None => Ok(no_column(alloc)),
    }
}

// What an absent column holds.
fn no_column(alloc: Global) -> DocSet
    ensures { (n : ℕ) → IsSetOf n (λ _. false) result }
{
    DocSet::none(alloc)
}
