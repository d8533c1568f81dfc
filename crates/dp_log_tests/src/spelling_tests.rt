use crate::models::reader_of;
use dp_base::Memory;
use dp_lines::line_text;
use std::alloc::Global;
use std::test::Fail;

/// A text, and how its lines are spelled.
const ROWS: &[(&[u8], &[u8])] = &[
    (
        b"a 010 [ mk!=-020]\n\n n 8  -1 20 0 7 01\r\nc -2",
        b"a 10 [mk != -20]\nn 8 -1 20 0 7 1\nc -2\n",
    ),
    (
        b"i 1 2 -3 0 l:a_1 c:007\ni 2 0 4\ni 3 0 l:0\n",
        b"i 1 2 -3 0 c:7 l:a_1\ni 2 0 4\ni 3 0 l:0\n",
    ),
    (b"n 1 0\nn 2 3 0\nc UNSAT", b"n 1\nn 2 3\nc UNSAT\n"),
];

/// The first lines of a short text, each spelled again.
fn spelled(alloc: Global, text: &[u8]) -> Result<Vec<u8>, Memory> {
    let mut reader = reader_of(alloc, text)?;
    let mut spelled = Vec::new(alloc);
    for _ in 0..20 {
        let Some((_, line)) = reader.line().ok().ok_or(Memory)? else {
            break;
        };
        spelled.extend_from_slice(line_text(alloc, &line)?.bytes())?;
    }
    Ok(spelled)
}

#[test]
fn lines_and_their_spelling(rt: HostRuntime) -> Result<(), Fail> {
    for (place, (text, lines)) in ROWS.iter().enumerate() {
        let found = spelled(rt.alloc(), *text)?;
        assert_eq!(rt; found.as_slice(), *lines, "text {place}");
    }
    Ok(())
}
