//! A first program over the store: it writes two files in memory, merges them, lists the columns of
//! the merged file, reads the values of its rows, looks rows up by a range of values, counts cells
//! and asks a query.
#![tactic(auto)]

use columnar::facets::{FacetCell, facet, top_facets};
use columnar::outside::{Buffer, Bytes, FileInMemory};
use columnar::queries::{QueryError, answer, parse_query};
use columnar::{
    ColumnarError, ColumnarReader, ColumnarWriter, DocId, DynamicColumn, MergeRowOrder, NumColumn,
    NumericalValue, StackFromReaders, StackMergeOrder, StrColumn, merge_columnar,
};
use serde_json::json;
use std::alloc::Global;
use std::process::ExitCode;

type Reader = ColumnarReader<FileInMemory>;

fn main(rt: HostRuntime) -> ExitCode {
    match report(rt.alloc()) {
        Ok(text) if print!(rt; "{text}").is_ok() => ExitCode::SUCCESS,
        Ok(_) => ExitCode::from(ColumnarError::WriteFault.code()),
        Err(error) => ExitCode::from(error.code()),
    }
}

fn report(alloc: Global) -> Result<String, ColumnarError> {
    let first = file_of(alloc, &[("Oslo", 700, false), ("Rome", 2800, true)])?;
    let second = file_of(alloc, &[("Paris", 2100, true)])?;
    let mut reader = stacked(alloc, first, second)?;
    let mut text = String::new(alloc);
    for (name, handle) in reader.list_columns(alloc)? {
        let column = handle.open(alloc, &mut reader)?;
        text.push_str(described(alloc, name.as_str(), &column)?.as_str())?;
    }
    text.push_str(capitals(alloc, &mut reader)?.as_str())?;
    Ok(text)
}

// The file of cities, each with its size and whether it is a capital.
fn file_of(alloc: Global, cities: &[(&str, i64, bool)]) -> Result<Reader, ColumnarError> {
    let num_docs = DocId::try_from(cities.len()).map_err(|_| ColumnarError::TooLarge)?;
    let mut writer = ColumnarWriter::new(alloc);
    for doc in 0..num_docs {
        let (city, size, is_capital) = cities[doc as usize];
        writer.record_str(doc, "city", city)?;
        writer.record_numerical(doc, "size", NumericalValue::I64(size))?;
        writer.record_bool(doc, "capital", is_capital)?;
    }
    let mut file = Buffer::new(alloc);
    writer.serialize(num_docs, None, &mut file)?;
    open(alloc, file)
}

fn open(alloc: Global, file: Buffer) -> Result<Reader, ColumnarError> {
    let file = FileInMemory::new(Bytes::from_vec(file.into_bytes())?);
    ColumnarReader::open(alloc, file).map_err(|(_, error)| error)
}

// The file with the rows of the first file, and behind them those of the second.
fn stacked(alloc: Global, first: Reader, second: Reader) -> Result<Reader, ColumnarError> {
    let mut readers = [first, second];
    let order = MergeRowOrder::from(StackMergeOrder::stack(alloc, &readers)?);
    let mut file = Buffer::new(alloc);
    merge_columnar(alloc, &mut readers, &[], order, &mut file)?;
    open(alloc, file)
}

// A line on a column, and behind it what the column answers.
fn described(alloc: Global, name: &str, column: &DynamicColumn) -> Result<String, ColumnarError> {
    let (kind, cardinality) = (column.column_type(), column.get_cardinality());
    let answers = match column {
        DynamicColumn::I64(sizes) => of_sizes(alloc, sizes)?,
        DynamicColumn::Str(cities) => of_cities(alloc, cities)?,
        _ => String::new(alloc),
    };
    let count = column.num_values();
    let counts = of_ends(alloc, column)?;
    Ok(format!(in alloc; "{name} {kind} {cardinality} {count}\n{answers}{counts}")?)
}

// How often each text stands in the first row and the third, the most frequent first.
fn of_ends(alloc: Global, column: &DynamicColumn) -> Result<String, ColumnarError> {
    let mut text = String::new(alloc);
    if column.num_docs() < 3 {
        return Ok(text);
    }
    let facets = facet(alloc, column, &[0, 2])?;
    for counted in &top_facets(alloc, &facets, 2)? {
        if let FacetCell::Term(term) = &counted.cell {
            let (term, count) = (term.as_slice(), counted.count);
            text.push_str(format!(in alloc; "  {term:?} in rows 0 and 2: {count}\n")?.as_str())?;
        }
    }
    Ok(text)
}

// The capitals whose size isn't from 1000 to 2500.
fn capitals(alloc: Global, reader: &mut Reader) -> Result<String, ColumnarError> {
    let asked = json!(in alloc; ["and", [
        ["range", "capital", "bool", true, true],
        ["not", ["range", "size", "i64", 1000, 2500]]
    ]])?;
    let query = match parse_query(alloc, &asked) {
        Ok(query) => query,
        Err(QueryError::Memory) => return Err(ColumnarError::OutOfMemory),
        Err(QueryError::Shape) => return Err(ColumnarError::InvalidData),
    };
    let found = answer(alloc, reader, &query)?;
    Ok(format!(in alloc; "capitals of other sizes: {found:?}\n")?)
}

fn of_sizes(alloc: Global, sizes: &NumColumn<i64>) -> Result<String, ColumnarError> {
    let mut found = Vec::new(alloc);
    sizes.get_docids_for_value_range(1000..=2500, 0..sizes.num_docs(), &mut found)?;
    let mut text = format!(in alloc; "  from 1000 to 2500: {found:?}\n")?;
    for doc in 0..sizes.num_docs() {
        for size in sizes.values_for_doc(doc) {
            text.push_str(format!(in alloc; "  {doc}: {size}\n")?.as_str())?;
        }
    }
    Ok(text)
}

fn of_cities(alloc: Global, cities: &StrColumn) -> Result<String, ColumnarError> {
    let column = cities.bytes_column();
    let (mut found, mut city) = (Vec::new(alloc), String::new(alloc));
    column.get_docids_for_term_range(b"P", b"Z", 0..column.num_rows(), &mut found)?;
    let mut text = format!(in alloc; "  from P to Z: {found:?}\n")?;
    for doc in 0..column.num_rows() {
        for ord in column.term_ords(doc) {
            cities.ord_to_str(ord, &mut city)?;
            text.push_str(format!(in alloc; "  {doc}: {city}\n")?.as_str())?;
        }
    }
    Ok(text)
}
