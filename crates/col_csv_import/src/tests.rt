//! Texts that have a table, texts that have none, and calls that fail.
ghost use Rattle.std.specs.Prelude.{◌≤◌, length};
ghost use Rattle.col_program.specs.Outcome.{max_script_length};

use crate::{import_csv, import_text};
use col_common::{MemSource, VecSink};
use col_csv::CsvError;
use std::alloc::{AllocError, Global};
use std::test::Fail;

// The number of a call that none reaches.
const NEVER: u64 = 99;

// What is answered of a text that a source holds, where one read and one write fail.
fn answer_of(
    alloc: Global,
    text: &str,
    failing_read: u64,
    failing_write: u64,
) -> Result<Result<(), CsvError>, AllocError> {
    let bytes = text.as_bytes().to_vec(alloc)?;
    let mut source = MemSource::new(bytes, vec![in alloc; failing_read]?);
    let mut sink = VecSink::new(Vec::new(alloc), vec![in alloc; failing_write]?);
    Ok(import_csv(alloc, &mut source, &mut sink))
}

#[test]
fn texts_have_their_answers(rt: HostRuntime) -> Result<(), Fail> {
    for (text, answer) in [
        ("#\n", Ok(())),
        ("#,u64:a\n0,=5", Ok(())),
        (
            "#,i64:a,str:a,ip:b\r\n0,=-5,=,\r\n1,,\"=,\"\"\",\r\n",
            Ok(()),
        ),
        ("#,bytes:f,bool:f,datetime:f\n0,=00ff,=true,=-1\n", Ok(())),
        ("", Err(CsvError::BadCsv)),
        ("a,u64:a\n0,=5", Err(CsvError::BadCsv)),
        ("#,u64:a\n1,=5", Err(CsvError::BadCsv)),
        ("#,u64:a\n0,5", Err(CsvError::BadCsv)),
        ("#,u64:a\n0,=05", Err(CsvError::BadCsv)),
        ("#,u64:a\n0,=5,", Err(CsvError::BadCsv)),
        ("#,u64:b,u64:a\n0,,", Err(CsvError::BadCsv)),
        ("#,i64:a,u64:a\n0,,", Err(CsvError::BadCsv)),
    ] {
        assert_eq!(rt;
            answer_of(rt.alloc(), text, NEVER, NEVER)?,
            answer,
            "{text}"
        );
    }
    Ok(())
}

#[test]
fn failed_calls_are_told(rt: HostRuntime) -> Result<(), Fail> {
    for (failing_read, failing_write, answer) in [
        (0, NEVER, Err(CsvError::ReadFault)),
        (1, NEVER, Err(CsvError::ReadFault)),
        (NEVER, 0, Err(CsvError::WriteFault)),
        (NEVER, NEVER, Ok(())),
    ] {
        let given = answer_of(rt.alloc(), "#,u64:a\n0,=5\n", failing_read, failing_write)?;
        assert_eq!(rt; given, answer);
    }
    Ok(())
}

// The file of a text.
fn file_of(alloc: Global, text: &[u8]) -> Result<Vec<u8>, CsvError>
    requires { length text.now ≤ max_script_length }
{
    let mut sink = VecSink::new(Vec::new(alloc), Vec::new(alloc));
    import_text(alloc, text, &mut sink)?;
    Ok(sink.into_bytes())
}

#[test]
fn columns_without_values_are_kept(rt: HostRuntime) -> Result<(), Fail> {
    let file = file_of(rt.alloc(), b"#,str:name\n0,\n1,\n")?;
    assert!(rt; file.windows(6).any(|part| part == b"name\0\x04".as_slice()));
    Ok(())
}
