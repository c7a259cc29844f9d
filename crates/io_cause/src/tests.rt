// Texts of failures, which no clause says.
use crate::{Call, Cause};
use std::io;
use std::test::Fail;

/// The errors are numbered as Linux numbers them, and have the C library's words.
#[test]
fn a_failure_names_its_file_its_call_and_its_words(rt: HostRuntime) -> Result<(), Fail> {
    let cases = [
        (
            "assm.log",
            Call::Write,
            28,
            "assm.log: write: No space left on device",
        ),
        (
            "assm.dat",
            Call::Sync,
            5,
            "assm.dat: sync: Input/output error",
        ),
        (
            "standard input",
            Call::Read,
            21,
            "standard input: read: Is a directory",
        ),
    ];
    for (name, call, code, text) in cases {
        let error = io::Error::from_raw_os_error(code);
        let cause = Cause { name, call, error };
        assert_eq!(rt; cause.line(rt.alloc())?.as_str(), text);
    }
    let error = io::Error::other("not a regular file");
    let cause = Cause {
        name: "assm.log",
        call: Call::Open,
        error,
    };
    assert_eq!(rt;
        cause.line(rt.alloc())?.as_str(),
        "assm.log: open: not a regular file"
    );
    Ok(())
}
