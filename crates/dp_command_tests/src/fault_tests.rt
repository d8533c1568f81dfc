// Over a desk that never fails; each front of a log; the largest numbers.

use crate::runs::{MODEL, STEPS, answered, front};
use dp_base::{Memory, Name, Text};
use dp_command::run;
use dp_desk::{HonestDesk, Out};
use dp_pool::Open;
use std::alloc::{AllocError, Global};
use std::test::Fail;
use std::thread::Threads;

// What is written behind the steps of a log that proves the model.
const END: &str = "n 8 0 1 2 3 4 5 6 7\nc UNSAT\n";

// The answer where it is accepted: 16 bytes.
const ACCEPTED: &str = "accepted: UNSAT\n";

// A desk that never fails, with a model and a log of these names, and room for so many bytes of an output.
fn honest_desk(alloc: Global, log: &str, room: usize) -> Result<HonestDesk, Memory> {
    let mut files = Vec::new(alloc);
    for (name, text) in [("m", MODEL), ("l", log)] {
        let name = Name::new(name.as_bytes().to_vec(alloc)?);
        files.push((name, Text::new(text.as_bytes().to_vec(alloc)?)))?;
    }
    HonestDesk::new(alloc, files, room)
}

// The status and the answer of a check of a log.
fn checked<R: Threads + Sync>(
    rt: &R,
    alloc: Global,
    log: &[u8],
) -> Result<(u8, Vec<u8>), AllocError> {
    answered(rt, alloc, &["check", "m", "l"], MODEL, log, 1_000_000, &[])
}

#[test]
fn a_log_is_judged_over_a_desk_that_never_fails(rt: HostRuntime) -> Result<(), Fail> {
    let alloc = rt.alloc();
    let log = format!(in alloc; "{STEPS}{END}")?;
    let mut desk = honest_desk(alloc, log.as_str(), 16)?;
    assert_eq!(rt; run(&rt, alloc, &["check", "m", "l"], &mut desk, &Open), 0);
    assert_eq!(rt; desk.written(Out::Answer), Some(ACCEPTED.as_bytes()));
    Ok(())
}

#[test]
fn a_name_without_a_file_is_an_empty_log(rt: HostRuntime) -> Result<(), Fail> {
    let alloc = rt.alloc();
    let mut desk = honest_desk(alloc, "", 100)?;
    assert_eq!(rt;
        run(&rt, alloc, &["check", "m", "absent"], &mut desk, &Open),
        1
    );
    assert_eq!(rt;
        desk.written(Out::Answer),
        Some(b"refused: NoConclusion at line 1\n".as_slice())
    );
    Ok(())
}

#[test]
fn an_answer_past_the_room_is_no_fault(rt: HostRuntime) -> Result<(), Fail> {
    let alloc = rt.alloc();
    let log = format!(in alloc; "{STEPS}{END}")?;
    let mut desk = honest_desk(alloc, log.as_str(), 15)?;
    assert_eq!(rt; run(&rt, alloc, &["check", "m", "l"], &mut desk, &Open), 0);
    assert_eq!(rt; desk.written(Out::Answer), None);
    Ok(())
}

#[test]
fn fronts_of_a_log_are_refused(rt: HostRuntime) -> Result<(), Fail> {
    let alloc = rt.alloc();
    let log = format!(in alloc; "{STEPS}{END}")?;
    for count in 0..270 {
        let (status, _answer) = checked(&rt, alloc, front(log.as_bytes(), count))?;
        assert_eq!(rt; status, 1, "{count} bytes");
    }
    Ok(())
}

#[test]
fn all_but_the_last_end_of_line_is_accepted(rt: HostRuntime) -> Result<(), Fail> {
    let alloc = rt.alloc();
    let log = format!(in alloc; "{STEPS}{END}")?;
    assert_eq!(rt; log.len(), 271);
    for count in [270, 271] {
        let (status, answer) = checked(&rt, alloc, front(log.as_bytes(), count))?;
        assert_eq!(rt; status, 0, "{count} bytes");
        assert_eq!(rt; answer.as_slice(), ACCEPTED.as_bytes(), "{count} bytes");
    }
    Ok(())
}

#[test]
fn large_numbers_are_told(rt: HostRuntime) -> Result<(), Fail> {
    let alloc = rt.alloc();
    let rows = [
        (
            "n 1 1000000000000000001",
            "refused: Number at line 1 byte 5\n",
        ),
        (
            "n 1 1000000000000000000",
            "refused: UnknownAtom 1000000000000000000 at line 1\nn 1 1000000000000000000\n",
        ),
        ("i 1 0 5", "refused: UnknownAtom 5 at line 1\ni 1 0 5\n"),
    ];
    for (log, want) in rows {
        let (status, answer) = checked(&rt, alloc, log.as_bytes())?;
        assert_eq!(rt; status, 1, "{log}");
        assert_eq!(rt; answer.as_slice(), want.as_bytes(), "{log}");
    }
    Ok(())
}
