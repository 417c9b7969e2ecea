//! Exports and imports, where calls of the outside fail.
use crate::run::{Ended, run};
use crate::tests::{NEVER, SOUND, VERSION_1, left_by, words_of};
use bytes::Bytes;
use col_common::{MemHandle, MemSource, VecSink};
use std::alloc::{AllocError, Global};
use std::test::Fail;

// A file of version 2: three rows, and the column "s" of str, which has no value.
const FLAT: &[u8] = b"\0\0\0\0\x01\x83\0\x80\x81\x80\x80\0\x80\x81\x80\x80\
\x07\0\0\0\0\0\0\0\x04\0\0\0\x81\x83s\0\x04\x9c\x06\0\0\0\0\0\0\0\x03\0\0\0\x02\0\0\0\x02qwB";

const TEXT: &str = "#,str:s\n0,\n1,\n2,\n";

const REPORT: &str = "[\"rows\",3]\n[\"column\",\"s\",\"str\",\"opt\",0]\n";

// Which call of the input, the script, the output and the report fails, and what that leaves of an
// export: the status, how much of the text, and how much of the report. The end takes two reads,
// and the column one for the text and one for the report.
const EXPORTS: [([u64; 4], u8, usize, usize); 8] = [
    ([0, NEVER, NEVER, NEVER], 4, 0, 0),
    ([1, NEVER, NEVER, NEVER], 4, 0, 0),
    ([2, NEVER, NEVER, NEVER], 4, 0, 0),
    ([3, NEVER, NEVER, NEVER], 4, 0, 0),
    ([4, NEVER, NEVER, NEVER], 0, 17, 40),
    ([NEVER, 0, NEVER, NEVER], 0, 17, 40),
    ([NEVER, NEVER, 0, NEVER], 5, 8, 0),
    ([NEVER, NEVER, NEVER, 0], 5, 17, 20),
];

// Which read of the text, and which write of the output and of the report fails, and the status of
// its import.
const IMPORTS: [([u64; 3], u8); 5] = [
    ([NEVER, NEVER, NEVER], 0),
    ([0, NEVER, NEVER], 4),
    ([1, NEVER, NEVER], 4),
    ([NEVER, 0, NEVER], 5),
    ([NEVER, NEVER, 0], 5),
];

// The status and the report of an import of a text, where one call of each fails.
fn imported(alloc: Global, text: &str, failing: [u64; 3]) -> Result<(u8, Vec<u8>), AllocError> {
    let [of_text, of_output, of_report] = failing;
    let words = words_of(alloc, &["import", "out"])?;
    let inputs: Vec<MemHandle> = Vec::new(alloc);
    let mut text = MemSource::new(text.as_bytes().to_vec(alloc)?, vec![in alloc; of_text]?);
    let mut output = VecSink::new(Vec::new(alloc), vec![in alloc; of_output]?);
    let mut report = VecSink::new(Vec::new(alloc), vec![in alloc; of_report]?);
    let Ended { status, inputs } = run(alloc, &words, inputs, &mut text, &mut output, &mut report);
    drop(inputs);
    Ok((status, report.into_bytes()))
}

#[test]
fn an_export_is_cut_short_by_a_fault(rt: HostRuntime) -> Result<(), Fail> {
    for (failing, status, text, report) in EXPORTS {
        let words = ["export", "out", "in"];
        let left = left_by(rt.alloc(), &words, Bytes::from_static(FLAT), "", failing)?;
        assert_eq!(rt; left.status, status, "{failing:?}");
        assert_eq!(rt;
            left.output.as_slice(),
            &TEXT.as_bytes()[..text],
            "{failing:?}"
        );
        assert_eq!(rt;
            left.report.as_slice(),
            &REPORT.as_bytes()[..report],
            "{failing:?}"
        );
    }
    let words = ["export", "out", "in"];
    let left = left_by(rt.alloc(), &words, Bytes::from_static(VERSION_1), "", SOUND)?;
    assert_eq!(rt; left.status, 22);
    assert!(rt; left.output.is_empty() && left.report.is_empty());
    Ok(())
}

#[test]
fn an_import_ends_with_the_status_of_its_fault(rt: HostRuntime) -> Result<(), Fail> {
    for (failing, status) in IMPORTS {
        let (ended, report) = imported(rt.alloc(), TEXT, failing)?;
        assert_eq!(rt; ended, status, "{failing:?}");
        let count = if status == 0 {
            40
        } else if failing[2] == 0 {
            20
        } else {
            0
        };
        assert_eq!(rt;
            report.as_slice(),
            &REPORT.as_bytes()[..count],
            "{failing:?}"
        );
    }
    let (ended, report) = imported(rt.alloc(), "#,str:s\n1,\n", [NEVER, NEVER, NEVER])?;
    assert_eq!(rt; ended, 23);
    assert!(rt; report.is_empty());
    Ok(())
}
