//! Puts documents.
ghost use Rattle.std.specs.Prelude.{map};
ghost use Rattle.col_print.specs.Puts.{Puts};
ghost use Rattle.col_program.specs.Report.{count_data, docs_data, list_data};
ghost use Rattle.col_report.specs.Printed.{PutsData, more_text};

use col_common::DocId;
use col_print::{Out, put_number};

// Puts documents, or their count in a short report.
#[tactic(auto, unfolding(crate::specs::Printed::PutsData))]
pub(crate) fn put_docs<O: Out>(docs: &[DocId], short: bool, out: &mut O)
    ensures { PutsData (O.seen out.old) (O.seen out.new) (docs_data short docs.now) }
{
    if short {
        put_number(out, docs.len() as u64);
    } else {
        put_list(docs, out);
    }
}

// Puts an array of documents.
fn put_list<O: Out>(docs: &[DocId], out: &mut O)
    ensures { PutsData (O.seen out.old) (O.seen out.new) (list_data (map count_data docs.now)) }
{
    let [first, others @ ..] = docs else {
        out.put(b"[]");
        return;
    };
    out.put(b"[");
    put_number(out, *first as u64);
    put_others(others, out);
    out.put(b"]");
}

// Puts documents, each with a comma in front.
fn put_others<O: Out>(docs: &[DocId], out: &mut O)
    ensures { Puts (O.seen out.old) (O.seen out.new) (more_text (map count_data docs.now)) }
{
    for doc in docs {
        out.put(b",");
        put_number(out, *doc as u64);
    }
}
