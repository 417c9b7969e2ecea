//! Finds the documents of a lookup in a column of its type.
ghost use Rattle.std.specs.Prelude.{◌≡◌};
ghost use Rattle.col_common.specs.Replacing.{Replaces};
ghost use Rattle.col_dynamic.specs.Dynamic.{type_of, content_of};
ghost use Rattle.col_questions.specs.Finds as finds;
ghost use Rattle.col_model.specs.Lookup.{docs_between};

use col_common::{ColumnarError, DocId};
use col_dynamic::DynamicColumn;
use col_query::put_docs_between;
use col_questions::{Ends, Find};

// Puts the documents that a lookup finds in a column of its type.
pub(crate) fn find_docs(
    column: &DynamicColumn,
    find: &Find,
    docs: &mut Vec<DocId>,
) -> Result<(), ColumnarError>
    requires { type_of column.now ≡ finds.ends_type find.now.ends }
    ensures { Replaces result docs.new.items (docs_between (content_of column.now)
        (finds.low_of find.now.ends) (finds.high_of find.now.ends) find.now.from find.now.to) }
{
    let selected = find.from..find.to;
    match (column, &find.ends) {
        (DynamicColumn::Bool(flags), Ends::Bool { lo, hi }) => {
            put_docs_between(flags, *lo, *hi, selected, docs)
        }
        (DynamicColumn::I64(numbers), Ends::I64 { lo, hi }) => {
            put_docs_between(numbers, *lo, *hi, selected, docs)
        }
        (DynamicColumn::U64(numbers), Ends::U64 { lo, hi }) => {
            put_docs_between(numbers, *lo, *hi, selected, docs)
        }
        (DynamicColumn::IpAddr(addresses), Ends::IpAddr { lo, hi }) => {
            put_docs_between(addresses, *lo, *hi, selected, docs)
        }
        (DynamicColumn::DateTime(times), Ends::DateTime { lo, hi }) => {
            put_docs_between(times, *lo, *hi, selected, docs)
        }
        (DynamicColumn::Bytes(terms), Ends::Bytes { lo, hi }) => {
            terms.get_docids_for_term_range(lo, hi, selected, docs)
        }
        (DynamicColumn::Str(texts), Ends::Str { lo, hi }) => {
            let terms = texts.bytes_column();
            terms.get_docids_for_term_range(lo.as_bytes(), hi.as_bytes(), selected, docs)
        }
        _ => unreachable!(),
    }
}
