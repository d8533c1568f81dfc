use crate::runs::{STEPS, answered};
use std::alloc::{AllocError, Global};
use std::test::Fail;
use std::thread::Threads;

// What is shown of a whole log up to its conclusion's nogood.
const SHOWN_STEPS: &str =
    "1: true -> [x <= 2] (c:1 l:linear)\n2: true -> [y <= 2] (c:1 l:linear)\n3: [y <= 2] -> [x >= 1] (c:2 l:linear)\n4: [x >= 1] -> [y <= 1] (c:1 l:linear)\n5: [y <= 1] -> [x >= 2] (c:2 l:linear)\n6: [x >= 2] -> [y <= 0] (c:1 l:linear)\n7: [x <= 2] & [y <= 0] -> false (c:2 l:linear)\n";

// A log's end, and what is shown of it.
const END: &str = "n 8 0 1 2 3 4 5 6 7\nc UNSAT\n";

const SHOWN_END: &str = "8: not (true) by 1 2 3 4 5 6 7\nconclusion: UNSAT\n";

// A log with a step, which is refused behind it, and its answer.
const REFUSED: &str = "a 1 [x >= 1]\nn 1 1\nn 2 1 -3\nc UNSAT\n";

const SHOWN_REFUSED: &str = "1: not ([x >= 1])\nrefused: UnknownAtom -3 at line 3\nn 2 1 -3\n";

// Shows a log beside a text that is no model, and gives back the status and the answer.
fn shown<R: Threads + Sync>(
    rt: &R,
    alloc: Global,
    log: &[u8],
    piece: usize,
    failing: &[u64],
) -> Result<(u8, Vec<u8>), AllocError> {
    answered(rt, alloc, &["show", "l"], "#", log, piece, failing)
}

#[test]
fn whole_logs_are_shown(rt: HostRuntime) -> Result<(), Fail> {
    let alloc = rt.alloc();
    let log = format!(in alloc; "{STEPS}{END}")?;
    let text = format!(in alloc; "{SHOWN_STEPS}{SHOWN_END}")?;
    let rows = [
        ("a whole log", log.as_str(), text.as_str()),
        ("nothing", "", ""),
        ("blank lines", "\n \t\n\n", ""),
        ("atoms alone", "a 1 [x >= 3]\na 2 [absent != 0]\n", ""),
        (
            "a bound",
            "a 1 [obj >= 7]\ni 1 -1 0 c:1 l:linear\nn 2 -1 0 1\na 2 [obj <= 6]\nc -2\n",
            "1: [obj <= 6] -> false (c:1 l:linear)\n2: not ([obj <= 6]) by 1\nconclusion: [obj >= 7]\n",
        ),
        (
            "a nogood without hints",
            "a 1 [x == 5]\na 2 [y != 3]\nn 7 -1 -2 1\n",
            "7: not ([x != 5] & [y == 3] & [x == 5])\n",
        ),
        (
            "inferences with a field and without",
            "a 1 [x == 2]\ni 4 1 0 -1\ni 5 0 1 c:12\ni 6 1 0 l:initial_domain\ni 7 0 l:linear c:3\n",
            "4: [x == 2] -> [x != 2]\n5: true -> [x == 2] (c:12)\n6: [x == 2] -> false (l:initial_domain)\n7: true -> false (c:3 l:linear)\n",
        ),
        (
            "lenient spellings",
            "  a 01 [ x>= -3 ]\r\n\n n\t002  001  0 007 \r\nc   -1",
            "2: not ([x >= -3]) by 7\nconclusion: [x <= -4]\n",
        ),
        (
            "what a check alone refuses",
            "c UNSAT\ni 1 0 c:0009 l:clause\ni 1 0\nn 1 0 8\nc UNSAT\n",
            "conclusion: UNSAT\n1: true -> false (c:9 l:clause)\n1: true -> false\n1: not (true) by 8\nconclusion: UNSAT\n",
        ),
    ];
    for (name, log, text) in rows {
        for piece in [1, 16, 1_000_000] {
            let (status, answer) = shown(&rt, alloc, log.as_bytes(), piece, &[])?;
            assert_eq!(rt; status, 0, "{name}");
            assert_eq!(rt; answer.as_slice(), text.as_bytes(), "{name}");
        }
    }
    Ok(())
}

#[test]
fn steps_before_a_refused_line_are_shown(rt: HostRuntime) -> Result<(), Fail> {
    let alloc = rt.alloc();
    let rows = [
        ("n 2 1x", "refused: Form at line 4 byte 5\n"),
        ("n", "refused: Form at line 4 byte 2\n"),
        ("a 2 [x >= 3y]", "refused: Form at line 4 byte 12\n"),
        ("n 2 -0", "refused: Number at line 4 byte 5\n"),
        ("d 1", "refused: NotBuilt at line 4\n"),
        (
            "a  01 [y>=2]",
            "refused: AtomTwice at line 4\na 1 [y >= 2]\n",
        ),
        (
            "a 1 [absent <= 2]",
            "refused: AtomTwice at line 4\na 1 [absent <= 2]\n",
        ),
        (
            "i 6 1 -3 0 2",
            "refused: UnknownAtom -3 at line 4\ni 6 1 -3 0 2\n",
        ),
        (
            "i 6 1 0 2 l:linear c:1",
            "refused: UnknownAtom 2 at line 4\ni 6 1 0 2 c:1 l:linear\n",
        ),
        (
            "n 2 7 8 0 09",
            "refused: UnknownAtom 7 at line 4\nn 2 7 8 0 9\n",
        ),
        ("c -7", "refused: UnknownAtom -7 at line 4\nc -7\n"),
    ];
    for (line, refusal) in rows {
        let log = format!(in alloc; "a 1 [x >= 1]\ni 1 1 0\n\n{line}\nn 9 1\nd 1\n")?;
        let text = format!(in alloc; "1: [x >= 1] -> false\n{refusal}")?;
        for piece in [1, 1_000_000] {
            let (status, answer) = shown(&rt, alloc, log.as_bytes(), piece, &[])?;
            assert_eq!(rt; status, 1, "{line}");
            assert_eq!(rt; answer.as_slice(), text.as_bytes(), "{line}");
        }
    }
    Ok(())
}

// Opening the log, two reads, and a write; behind a refused line there is no second read.
#[test]
fn failed_calls_are_told(rt: HostRuntime) -> Result<(), Fail> {
    let alloc = rt.alloc();
    let log = format!(in alloc; "{STEPS}{END}")?;
    for (log, done, write, behind) in [(log.as_str(), 0, 4, 5), (REFUSED, 1, 3, 4)] {
        for call in 1..write {
            let (status, answer) = shown(&rt, alloc, log.as_bytes(), 1_000_000, &[call])?;
            assert_eq!(rt; status, 5, "call {call} fails");
            assert_eq!(rt;
                answer.as_slice(),
                b"read fault\n".as_slice(),
                "call {call} fails"
            );
            let (status, answer) = shown(&rt, alloc, log.as_bytes(), 1_000_000, &[call, call + 1])?;
            assert_eq!(rt; status, 6, "call {call} and the next fail");
            assert_eq!(rt;
                answer.as_slice(),
                b"".as_slice(),
                "call {call} and the next fail"
            );
        }
        let (status, answer) = shown(&rt, alloc, log.as_bytes(), 1_000_000, &[write])?;
        assert_eq!(rt; status, 6, "the write fails");
        assert_eq!(rt; answer.as_slice(), b"".as_slice(), "the write fails");
        let (status, _) = shown(&rt, alloc, log.as_bytes(), 1_000_000, &[behind])?;
        assert_eq!(rt; status, done, "no call follows");
    }
    let (status, answer) = answered(
        &rt,
        alloc,
        &["show", "absent"],
        "#",
        b"c UNSAT\n",
        1_000_000,
        &[],
    )?;
    assert_eq!(rt; status, 5, "no such name");
    assert_eq!(rt;
        answer.as_slice(),
        b"read fault\n".as_slice(),
        "no such name"
    );
    Ok(())
}

// In pieces of 16 bytes: opening the log, two reads, of which the second brings the refused line, and four writes.
#[test]
fn a_failed_call_in_the_middle_is_told(rt: HostRuntime) -> Result<(), Fail> {
    let alloc = rt.alloc();
    for call in 1..4 {
        let (status, answer) = shown(&rt, alloc, REFUSED.as_bytes(), 16, &[call])?;
        assert_eq!(rt; status, 5, "call {call} fails");
        assert_eq!(rt;
            answer.as_slice(),
            b"read fault\n".as_slice(),
            "call {call} fails"
        );
    }
    for (call, written) in [(4, 0), (5, 16), (6, 32), (7, 48)] {
        let (status, answer) = shown(&rt, alloc, REFUSED.as_bytes(), 16, &[call])?;
        assert_eq!(rt; status, 6, "call {call} fails");
        assert_eq!(rt;
            Some(answer.as_slice()),
            SHOWN_REFUSED.as_bytes().get(..written),
            "call {call} fails"
        );
    }
    let (status, answer) = shown(&rt, alloc, REFUSED.as_bytes(), 16, &[8])?;
    assert_eq!(rt; status, 1, "there are seven calls");
    assert_eq!(rt;
        answer.as_slice(),
        SHOWN_REFUSED.as_bytes(),
        "there are seven calls"
    );
    Ok(())
}

// A log of more bytes than one read asks for: 40,000 hints.
#[test]
fn long_logs_are_shown_whole(rt: HostRuntime) -> Result<(), Fail> {
    let alloc = rt.alloc();
    let mut log = b"n 8 0".to_vec(alloc)?;
    let mut text = b"8: not (true) by".to_vec(alloc)?;
    for _ in 0..40_000 {
        log.extend_from_slice(b" 1")?;
        text.extend_from_slice(b" 1")?;
    }
    log.extend_from_slice(b"\nc UNSAT")?;
    text.extend_from_slice(b"\nconclusion: UNSAT\n")?;
    let (status, answer) = shown(&rt, alloc, log.as_slice(), 1_000_000, &[])?;
    assert_eq!(rt; status, 0);
    assert_eq!(rt; answer.as_slice(), text.as_slice());
    Ok(())
}
