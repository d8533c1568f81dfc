use crate::runs::{MODEL, STEPS, answered, left_by};
use std::test::Fail;

// The first whole line is refused; twenty blank lines follow behind another.
const REFUSED: &str = "q\nc UNSAT\n\n\n\n\n\n\n\n\n\n\n\n\n\n\n\n\n\n\n\n\n";

// Opening the model, its 120 bytes and their end in nine reads of 16, and opening the log are calls 1 to 11.
#[test]
fn a_refused_line_comes_before_the_next_read(rt: HostRuntime) -> Result<(), Fail> {
    let alloc = rt.alloc();
    let accepted = format!(in alloc; "{STEPS}n 8 0 1 2 3 4 5 6 7\nc UNSAT\n")?;
    let told = "refused: Form at line 1 byte 1\n";
    let fault = "read fault\n";
    let rows = [
        ("all calls go well", "check", REFUSED, 99, 1, told),
        ("the answer is not written", "check", REFUSED, 13, 6, ""),
        (
            "the first read of the log fails",
            "check",
            REFUSED,
            12,
            5,
            fault,
        ),
        ("the log is not opened", "check", REFUSED, 11, 5, fault),
        (
            "no line is refused before the second read",
            "check",
            accepted.as_str(),
            13,
            5,
            fault,
        ),
        ("a scaffold's refused line", "process", REFUSED, 99, 1, told),
        (
            "a scaffold's answer is not written",
            "process",
            REFUSED,
            13,
            6,
            "",
        ),
        (
            "the first read of the scaffold fails",
            "process",
            REFUSED,
            12,
            5,
            fault,
        ),
    ];
    for (name, command, log, call, status, text) in rows {
        let words: &[&str] = if command == "check" {
            &["check", "m", "l"]
        } else {
            &["process", "m", "l", "o"]
        };
        let (ended, answer) = answered(&rt, alloc, words, MODEL, log.as_bytes(), 16, &[call])?;
        assert_eq!(rt; ended, status, "{name}");
        assert_eq!(rt; answer.as_slice(), text.as_bytes(), "{name}");
    }
    Ok(())
}

// A line that is whole only with the bytes of the next read is judged behind that read.
#[test]
fn an_unfinished_line_waits(rt: HostRuntime) -> Result<(), Fail> {
    let alloc = rt.alloc();
    let words = ["check", "m", "l"];
    let rows = [
        ("its end comes with the second read", 13, 5, "read fault\n"),
        ("no third read is tried", 14, 6, ""),
        ("half of the answer is written", 15, 6, "refused: Form at"),
        ("it is refused", 16, 1, "refused: Form at line 1 byte 1\n"),
    ];
    for (name, call, status, text) in rows {
        let log =
            b"q and more than sixteen bytes\nc UNSAT\n\n\n\n\n\n\n\n\n\n\n\n\n\n\n\n\n\n\n\n\n\n";
        let (ended, answer) = answered(&rt, alloc, &words, MODEL, log.as_slice(), 16, &[call])?;
        assert_eq!(rt; ended, status, "{name}");
        assert_eq!(rt; answer.as_slice(), text.as_bytes(), "{name}");
    }
    Ok(())
}

// Nothing is written to the file of a scaffold that is refused early.
#[test]
fn no_file_is_opened_for_a_refused_scaffold(rt: HostRuntime) -> Result<(), Fail> {
    let words = ["process", "m", "l", "o"];
    let left = left_by(&rt, rt.alloc(), &words, MODEL, REFUSED.as_bytes(), 16, &[])?;
    assert!(rt; left.is(1, b"refused: Form at line 1 byte 1\n", None));
    Ok(())
}
