//! That what was recorded is sound.
ghost use Rattle.std.specs.Prelude.{IsTrue, string_bytes};
ghost use Rattle.std.specs.Str.{is_utf8};
ghost use Rattle.col_model.specs.Category as categories;
ghost use Rattle.col_model.specs.ColumnType as types;
ghost use Rattle.col_model.specs.Soundness.{IsSoundContent};
ghost use Rattle.col_types.specs.Cells.{bool_cell, unsigned_cell};
ghost use Rattle.col_writer_columns.specs.Columns.{plain_entry};
ghost use Rattle.col_writer_columns.specs.SoundEntries.{IsSoundIn, AreSoundTexts};
ghost use Rattle.col_writer_columns.specs.Values.{time_cell};
ghost use Rattle.col_writer.specs.SoundColumns.{AreNamed};

use super::ColumnarWriter;
use super::named_columns::NamedColumns;
use col_common::Ipv6Addr;
use col_writer_columns::{NumericalColumnWriter, PlainColumnWriter, StrOrBytesColumnWriter};

impl ColumnarWriter {
    /// That the content is sound, whatever was recorded: what `written_tables_are_sound` asks of
    /// it. It looks at each name and each address.
    pub fn content_is_sound(&self)
        ensures { IsSoundContent self.now }
    {
        columns_are_sound(&self.numerical);
        columns_are_sound(&self.bytes);
        columns_are_sound(&self.strs);
        columns_are_sound(&self.bools);
        columns_are_sound(&self.ip_addrs);
        columns_are_sound(&self.datetimes);
    }
}

// A column whose entry is sound.
trait SoundColumn {
    // What is said of it.
    ghost is_sound: { Self → Type 0 };

    fn entry_is_sound(&self)
        ensures { is_sound self.now };
}

impl SoundColumn for NumericalColumnWriter {
    ghost is_sound = { λ e. IsSoundIn categories.numerical e };

    fn entry_is_sound(&self) {
        self.entry_is_sound();
    }
}

impl SoundColumn for StrOrBytesColumnWriter {
    ghost is_sound = { λ w. AreSoundTexts w };

    fn entry_is_sound(&self) {
        self.entry_is_sound();
    }
}

impl SoundColumn for PlainColumnWriter<bool> {
    ghost is_sound = { λ w. IsSoundIn categories.bool (plain_entry types.bool bool_cell w) };

    fn entry_is_sound(&self) {
        self.entry_is_sound();
    }
}

impl SoundColumn for PlainColumnWriter<Ipv6Addr> {
    ghost is_sound = { λ w. IsSoundIn categories.ip (plain_entry types.ip unsigned_cell w) };

    fn entry_is_sound(&self) {
        self.entry_is_sound();
    }
}

impl SoundColumn for PlainColumnWriter<u64> {
    ghost is_sound = { λ w. IsSoundIn categories.datetime
        (plain_entry types.datetime time_cell w) };

    fn entry_is_sound(&self) {
        self.entry_is_sound();
    }
}

// The names are UTF-8, and the columns sound.
fn columns_are_sound<C: SoundColumn>(columns: &NamedColumns<C>)
    ensures { AreNamed C.is_sound columns.now }
{
    for (name, column) in columns.as_slice() {
        name_is_utf8(name);
        column.entry_is_sound();
    }
}

// That a name is UTF-8.
fn name_is_utf8(name: &String)
    ensures { IsTrue (is_utf8 (string_bytes name.now)) }
{
    // That a text's bytes are UTF-8.
    let _text = name.as_str();
}
