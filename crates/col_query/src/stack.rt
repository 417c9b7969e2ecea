//! Sets of documents on a stack.
ghost use Rattle.std.specs.Prelude.{◌≡◌, ℕ, ◌||◌, ◌∷◌, Bool, List, Some, IfOk, OnOk};
ghost use Rattle.col_model.specs.Table.{Table};
ghost use Rattle.col_program.specs.Queries as definitions;
ghost use Rattle.col_program.specs.Queries.{holds};
ghost use Rattle.col_query.specs.Sets.{IsSetOf};
ghost use Rattle.col_query.specs.Stacks.{joint_holds, AreSetsOf};
ghost use Rattle.col_questions.specs.Steps.{of_joint, joined};

use crate::doc_set::DocSet;
use col_questions::Joint;
use std::alloc::{AllocError, Global};

// The set of a query without members.
pub(crate) fn no_members(alloc: Global, joint: Joint) -> DocSet
    ensures { (t : Table) → IsSetOf t.row_count
        (holds t (of_joint joint definitions.no_queries)) result }
{
    match joint {
        Joint::And => DocSet::all(alloc),
        Joint::Or => DocSet::none(alloc),
    }
}

// Puts a set on top.
pub(crate) fn put_set(sets: &mut Vec<DocSet>, set: DocSet) -> Result<(), AllocError>
    ensures { (t : Table) (q : definitions.Query) (qs : List definitions.Query)
        → AreSetsOf t qs sets.old.items → IsSetOf t.row_count (holds t q) set
        → OnOk result (AreSetsOf t (q ∷ qs) sets.new.items) }
{
    sets.push(set)?;
    Ok(())
}

// Turns over the set on top.
pub(crate) fn turn_top(sets: &mut Vec<DocSet>) -> Result<(), AllocError>
    ensures { (t : Table) (q : definitions.Query) (qs : List definitions.Query)
        → AreSetsOf t (q ∷ qs) sets.old.items
        → OnOk result (AreSetsOf t (definitions.none_of q ∷ qs) sets.new.items) }
{
    match sets.pop() {
        Some(set) => put_set(sets, set.not()),
        None => Ok(()),
    }
}

// Joins the set on top to the one below it.
pub(crate) fn join_top(
    alloc: Global,
    sets: &mut Vec<DocSet>,
    joint: Joint,
    num_docs: u32,
) -> Result<(), AllocError>
    ensures { (t : Table) (q p r : definitions.Query) (qs : List definitions.Query)
        → t.row_count ≡ num_docs → AreSetsOf t (q ∷ p ∷ qs) sets.old.items
        → joined joint q p ≡ Some r → OnOk result (AreSetsOf t (r ∷ qs) sets.new.items) }
{
    match sets.pop() {
        Some(top) => join_set(alloc, sets, top, joint, num_docs),
        None => Ok(()),
    }
}

// Joins a set to the one on top.
fn join_set(
    alloc: Global,
    sets: &mut Vec<DocSet>,
    top: DocSet,
    joint: Joint,
    num_docs: u32,
) -> Result<(), AllocError>
    ensures { (t : Table) (q p r : definitions.Query) (qs : List definitions.Query)
        → t.row_count ≡ num_docs → IsSetOf t.row_count (holds t q) top
        → AreSetsOf t (p ∷ qs) sets.old.items
        → joined joint q p ≡ Some r → OnOk result (AreSetsOf t (r ∷ qs) sets.new.items) }
{
    match sets.pop() {
        Some(below) => put_joined(alloc, sets, below, top, joint, num_docs),
        None => Ok(()),
    }
}

// Puts two sets, joined, on top.
fn put_joined(
    alloc: Global,
    sets: &mut Vec<DocSet>,
    below: DocSet,
    top: DocSet,
    joint: Joint,
    num_docs: u32,
) -> Result<(), AllocError>
    ensures { (t : Table) (q p r : definitions.Query) (qs : List definitions.Query)
        → t.row_count ≡ num_docs → IsSetOf t.row_count (holds t p) below
        → IsSetOf t.row_count (holds t q) top → AreSetsOf t qs sets.old.items
        → joined joint q p ≡ Some r → OnOk result (AreSetsOf t (r ∷ qs) sets.new.items) }
{
    let set = joined_set(alloc, below, top, joint, num_docs)?;
    put_set(sets, set)
}

// The documents of both sets, or of either.
fn joined_set(
    alloc: Global,
    below: DocSet,
    top: DocSet,
    joint: Joint,
    num_docs: u32,
) -> Result<DocSet, AllocError>
    ensures { (p q : ℕ → Bool) → IsSetOf num_docs p below → IsSetOf num_docs q top
        → IfOk result (IsSetOf num_docs (λ d. joint_holds joint (p d) (q d))) }
{
    match joint {
        Joint::And => below.and(alloc, top, num_docs),
        Joint::Or => either(alloc, below, top, num_docs),
    }
}

// The documents of either set: all but those of neither.
fn either(alloc: Global, below: DocSet, top: DocSet, num_docs: u32) -> Result<DocSet, AllocError>
    ensures { (p q : ℕ → Bool) → IsSetOf num_docs p below → IsSetOf num_docs q top
        → IfOk result (IsSetOf num_docs (λ d. p d || q d)) }
{
    let left = below.not();
    let right = top.not();
    let neither = left.and(alloc, right, num_docs)?;
    Ok(neither.not())
}
