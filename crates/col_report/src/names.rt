//! Puts the names of columns.
ghost use Rattle.col_types.specs.Kinds.{kind_of};
ghost use Rattle.col_print.specs.Puts.{Puts};
ghost use Rattle.col_report.specs.Reported.{name_text};

use col_print::{Out, put_quoted};
use col_types::ColumnType;

// Puts the name and the type of a column, each with a comma behind it.
pub(crate) fn put_name<O: Out>(name: &str, column_type: ColumnType, out: &mut O)
    ensures { Puts (O.seen out.old) (O.seen out.new) (name_text name.now (kind_of column_type)) }
{
    put_quoted(out, name);
    out.put(b",");
    put_quoted(out, column_type.word());
    out.put(b",");
}
