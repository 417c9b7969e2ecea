//! Scripts of a set, by examples.
use crate::parse_set_script;
use std::alloc::{AllocError, Global};
use std::test::Fail;

// One line, and how many steps it is; none where it is no script.
const LINES: &[(&str, Option<usize>)] = &[
    ("", Some(0)),
    (r#"["segment",0]"#, Some(1)),
    (r#"["segment",4294967296]"#, None),
    (r#"["drop",[]]"#, Some(1)),
    (r#"["drop",[4294967295,0,0]]"#, Some(1)),
    (r#"["\u0064rop",[1]]"#, Some(1)),
    (r#" [ "drop" , [ 1 ] ] "#, Some(1)),
    (r#"["drop",[4294967296]]"#, None),
    (r#"["drop",[1,-1]]"#, None),
    (r#"["drop",[0.5]]"#, None),
    (r#"["drop",["1"]]"#, None),
    (r#"["drop",[[0,1]]]"#, None),
    (r#"["drop",1]"#, None),
    (r#"["drop",1,2]"#, None),
    (r#"["drop",[1],[2]]"#, None),
    (r#"["drop"]"#, None),
    (r#"["compact"]"#, Some(1)),
    (r#"["compact",[]]"#, None),
    (r#"["Compact"]"#, None),
    (r#"["find","a","u64",1,9]"#, Some(1)),
    (r#"["find","","i64",9,-1]"#, Some(1)),
    (r#"["find","a","str","x","y"]"#, Some(1)),
    (r#"["find","a","bytes","00","ff"]"#, Some(1)),
    (r#"["find","a","bool",false,true]"#, Some(1)),
    (r#"["find","a","bytes","0","ff"]"#, None),
    (r#"["find","a","u64",-1,9]"#, None),
    (r#"["find","a","u64",1,"9"]"#, None),
    (r#"["find","a","text","x","y"]"#, None),
    (r#"["find",1,"u64",1,9]"#, None),
    (r#"["find","a","u64",1]"#, None),
    (r#"["find","a","u64",1,9,0]"#, None),
    (r#"["find","a","u64",1,9,0,10]"#, None),
    (r#"["require","a","u64"]"#, None),
    (r#"["order",[[0,0]]]"#, None),
    (r#"["sort","a","u64",false]"#, None),
    (r#"["facet","a","u64"]"#, None),
    (r#"["query",["all"]]"#, None),
    (r#"["u64",0,"a",7]"#, None),
    (r#"["type","a","u64"]"#, None),
    (r#"["sorted","a","str"]"#, None),
    (r#"["tie","a",0]"#, None),
    (r#"["add"]"#, None),
    (r#"[1]"#, None),
    (r#"[]"#, None),
    (r#"{"compact":[]}"#, None),
    (r#""compact""#, None),
    (r#"["compact""#, None),
    (r#"["compact"]]"#, None),
    (" ", None),
    ("\r", None),
];

// The same of several lines.
const SCRIPTS: &[(&[&str], Option<usize>)] = &[
    (&["", ""], Some(0)),
    (&["", r#"["compact"]"#, "", r#"["compact"]"#, ""], Some(2)),
    (&["[\"compact\"]\r", "[\"compact\"]\r", ""], Some(2)),
    (&["[\"compact\"]\r", "\r"], None),
    (&[r#"["segment",1]"#, r#"["segment",1]"#], Some(2)),
    (
        &[
            r#"["segment",2]"#,
            r#"["type","a","i64"]"#,
            r#"["sorted","b","str"]"#,
            r#"["tie","c",-5]"#,
            r#"["u64",0,"a",7]"#,
            r#"["str",4294967295,"b","x"]"#,
            r#"["ip",1,"d","00000000000000000000ffff7f00000a"]"#,
            r#"["datetime",0,"e",-1]"#,
        ],
        Some(1),
    ),
    (&[r#"["segment",1]"#, r#"["sorted","a","u64"]"#], None),
    (&[r#"["segment",1]"#, r#"["u64",0,"a",-7]"#], None),
    (
        &[r#"["segment",1]"#, r#"["u64",0,"a",7]"#, r#"["add"]"#],
        None,
    ),
    (
        &[r#"["segment",1]"#, r#"["drop",[0]]"#, r#"["u64",0,"a",7]"#],
        None,
    ),
    (
        &[
            r#"["segment",1]"#,
            r#"["compact"]"#,
            r#"["type","a","i64"]"#,
        ],
        None,
    ),
    (
        &[
            r#"["segment",1]"#,
            r#"["find","a","u64",1,9]"#,
            r#"["tie","a",0]"#,
        ],
        None,
    ),
    (
        &[
            r#"["segment",1]"#,
            r#"["u64",0,"a",7]"#,
            r#"["drop",[0]]"#,
            r#"["segment",1]"#,
            r#"["u64",0,"a",8]"#,
            r#"["compact"]"#,
            r#"["find","a","u64",1,9]"#,
        ],
        Some(5),
    ),
];

// Bytes that are no UTF-8.
const OTHER_BYTES: &[&[u8]] = &[
    b"[\"compact\"]\xff",
    b"[\"find\",\"\xff\",\"u64\",1,9]",
    b"[\"segment\",1]\n[\"str\",0,\"a\",\"\xc3\"]",
];

// How many steps a script has.
fn count_steps(alloc: Global, script: &[u8]) -> Result<Option<usize>, AllocError> {
    match parse_set_script(alloc, script)? {
        Some(steps) => Ok(Some(steps.len())),
        None => Ok(None),
    }
}

#[test]
fn scripts_are_steps_or_bad(rt: HostRuntime) -> Result<(), Fail> {
    let alloc = rt.alloc();
    for (line, steps) in LINES {
        assert_eq!(rt; count_steps(alloc, line.as_bytes())?, *steps, "{line}");
    }
    for (lines, steps) in SCRIPTS {
        let script = lines.join(alloc, "\n")?;
        assert_eq!(rt; count_steps(alloc, script.as_bytes())?, *steps, "{script}");
    }
    for bytes in OTHER_BYTES {
        assert_eq!(rt; count_steps(alloc, bytes)?, None);
    }
    Ok(())
}
