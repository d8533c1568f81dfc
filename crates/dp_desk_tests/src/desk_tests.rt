use dp_base::{Memory, Name, Text};
use dp_desk::*;
use std::alloc::{AllocError, Global};
use std::fs;
use std::test::Fail;

// Two files of one name, of which the first counts, and a third.
fn files(alloc: Global) -> Result<Vec<(Name, Text)>, AllocError> {
    let mut files = Vec::new(alloc);
    for (name, text) in [("m", "abcdefghij"), ("m", "zz"), ("l", "xy")] {
        let name = Name::new(name.as_bytes().to_vec(alloc)?);
        files.push((name, Text::new(text.as_bytes().to_vec(alloc)?)))?;
    }
    Ok(files)
}

// A desk with these files, which moves four bytes at once, and of which one call fails.
fn desk_failing_at(alloc: Global, call: u64) -> Result<MemoryDesk, AllocError> {
    Ok(MemoryDesk::new(alloc, files(alloc)?, 4, [call].to_vec(alloc)?))
}

// A desk with these files, which never fails and tells eight bytes of an output.
fn honest_desk(alloc: Global) -> Result<HonestDesk, Memory> {
    HonestDesk::new(alloc, files(alloc)?, 8)
}

// Opens an input and reads once: how many bytes came into a buffer of 6, and the buffer.
fn first_read<D: Desk>(desk: &mut D, which: In, name: &str) -> Result<(usize, [u8; 6]), Failed> {
    let mut into = [0; 6];
    desk.open_in(which, name)?;
    let count = desk.read(which, &mut into)?;
    Ok((count, into))
}

// Opens an input, reads it four times, and answers how many bytes came each time.
fn four_reads<D: Desk>(desk: &mut D, name: &str) -> Result<[usize; 4], Failed> {
    let mut into = [0; 6];
    desk.open_in(In::Model, name)?;
    let first = desk.read(In::Model, &mut into)?;
    let second = desk.read(In::Model, &mut into[..3])?;
    let third = desk.read(In::Model, &mut into)?;
    let fourth = desk.read(In::Model, &mut into)?;
    Ok([first, second, third, fourth])
}

// Opens an output and writes all of a text.
fn write_text<D: Desk>(desk: &mut D, name: &str, text: &str) -> Result<(), Failed> {
    desk.open_out(Out::First, name)?;
    write_all(desk, Out::First, text.as_bytes())
}

// Four calls: copies what one read gives of an input by one write.
fn copy_once<D: Desk>(desk: &mut D, from: &str, to: &str) -> Result<usize, Failed> {
    let mut into = [0; 6];
    desk.open_in(In::Log, from)?;
    let count = desk.read(In::Log, &mut into)?;
    desk.open_out(Out::Second, to)?;
    desk.write(Out::Second, &into[..count])
}

#[test]
fn inputs_come_in_pieces(rt: HostRuntime) -> Result<(), Fail> {
    let alloc = rt.alloc();
    let mut desk = desk_failing_at(alloc, 0)?;
    let rows = [
        ("m", Ok((4, *b"abcd\0\0"))),
        ("absent", Err(Failed)),
        ("l", Ok((2, *b"xy\0\0\0\0"))),
        ("m", Ok((4, *b"abcd\0\0"))),
    ];
    for (name, want) in rows {
        assert_eq!(rt; first_read(&mut desk, In::Model, name), want, "{name}");
        assert_eq!(rt; first_read(&mut desk, In::Log, name), want, "{name}");
    }
    assert_eq!(rt; four_reads(&mut desk, "m"), Ok([4, 3, 3, 0]));
    Ok(())
}

#[test]
fn outputs_grow_in_pieces(rt: HostRuntime) -> Result<(), Fail> {
    let alloc = rt.alloc();
    let mut desk = desk_failing_at(alloc, 0)?;
    assert_eq!(rt; desk.written(Out::First), None);
    for text in ["0123456789", "", "xyz"] {
        assert_eq!(rt; write_text(&mut desk, "f", text), Ok(()));
        assert_eq!(rt; desk.written(Out::First), Some(text.as_bytes()));
    }
    assert_eq!(rt; desk.written(Out::Second), None);
    assert_eq!(rt; desk.written(Out::Answer), Some(b"".as_slice()));
    assert_eq!(rt; desk.write(Out::Answer, b"hello")?, 4);
    assert_eq!(rt; desk.written(Out::Answer), Some(b"hell".as_slice()));
    Ok(())
}

#[test]
fn listed_calls_fail(rt: HostRuntime) -> Result<(), Fail> {
    let alloc = rt.alloc();
    let rows = [
        (1, Err(Failed), None),
        (2, Err(Failed), None),
        (3, Err(Failed), None),
        (4, Err(Failed), Some("")),
        (5, Ok(4), Some("abcd")),
    ];
    for (call, want, written) in rows {
        let mut desk = desk_failing_at(alloc, call)?;
        assert_eq!(rt; copy_once(&mut desk, "m", "s"), want, "{call}");
        assert_eq!(rt;
            desk.written(Out::Second),
            written.map(|text: &str| text.as_bytes()),
            "{call}"
        );
        assert_eq!(rt; copy_once(&mut desk, "l", "s").is_ok(), call < 5, "{call}");
    }
    Ok(())
}

#[test]
fn a_failed_write_ends_a_text(rt: HostRuntime) -> Result<(), Fail> {
    let alloc = rt.alloc();
    for (call, want) in [(2, 0), (3, 4), (4, 8)] {
        let mut desk = desk_failing_at(alloc, call)?;
        assert_eq!(rt; write_text(&mut desk, "f", "0123456789"), Err(Failed));
        assert_eq!(rt;
            desk.written(Out::First).map(|bytes| bytes.len()),
            Some(want)
        );
    }
    Ok(())
}

#[test]
fn every_name_is_held(rt: HostRuntime) -> Result<(), Fail> {
    let mut desk = honest_desk(rt.alloc())?;
    let rows = [
        ("m", Ok((6, *b"abcdef"))),
        ("absent", Ok((0, [0; 6]))),
        ("l", Ok((2, *b"xy\0\0\0\0"))),
        ("m", Ok((6, *b"abcdef"))),
    ];
    for (name, want) in rows {
        assert_eq!(rt; first_read(&mut desk, In::Model, name), want, "{name}");
        assert_eq!(rt; first_read(&mut desk, In::Log, name), want, "{name}");
    }
    assert_eq!(rt; four_reads(&mut desk, "m"), Ok([6, 3, 1, 0]));
    Ok(())
}

#[test]
fn outputs_are_told_while_they_fit(rt: HostRuntime) -> Result<(), Fail> {
    let mut desk = honest_desk(rt.alloc())?;
    assert_eq!(rt; desk.written(Out::First), None);
    let rows = [
        ("01234567", true),
        ("", true),
        ("012345678", false),
        ("abc", true),
    ];
    for (text, told) in rows {
        assert_eq!(rt; write_text(&mut desk, "f", text), Ok(()));
        let written = desk.written(Out::First).unwrap_or(b"not told");
        let want = if told { text } else { "not told" };
        assert_eq!(rt; written, want.as_bytes());
    }
    Ok(())
}

#[test]
fn a_write_past_the_room_takes_the_bytes(rt: HostRuntime) -> Result<(), Fail> {
    let mut desk = honest_desk(rt.alloc())?;
    assert_eq!(rt; desk.write(Out::Answer, b"hello")?, 5);
    assert_eq!(rt; desk.written(Out::Answer), Some(b"hello".as_slice()));
    assert_eq!(rt; desk.write(Out::Answer, b"once more")?, 9);
    assert_eq!(rt; desk.written(Out::Answer), None);
    assert_eq!(rt; desk.write(Out::Answer, b"")?, 0);
    assert_eq!(rt; desk.written(Out::Answer), None);
    Ok(())
}

#[test]
fn a_text_is_copied_between_honest_names(rt: HostRuntime) -> Result<(), Fail> {
    let mut desk = honest_desk(rt.alloc())?;
    assert_eq!(rt; copy_once(&mut desk, "m", "s")?, 6);
    assert_eq!(rt; desk.written(Out::Second), Some(b"abcdef".as_slice()));
    Ok(())
}

#[test]
fn an_absent_name_is_copied_as_an_empty_text(rt: HostRuntime) -> Result<(), Fail> {
    let mut desk = honest_desk(rt.alloc())?;
    assert_eq!(rt; copy_once(&mut desk, "absent", "s")?, 0);
    assert_eq!(rt; desk.written(Out::Second), Some(b"".as_slice()));
    Ok(())
}

#[test]
fn the_machine_keeps_a_file(rt: HostRuntime) -> Result<(), Fail> {
    let mut desk = HostDesk::new(&rt);
    assert_eq!(rt; first_read(&mut desk, In::Model, "absent"), Err(Failed));
    assert_eq!(rt; write_text(&mut desk, "kept", "hello"), Ok(()));
    assert_eq!(rt;
        first_read(&mut desk, In::Model, "kept"),
        Ok((5, *b"hello\0"))
    );
    assert_eq!(rt; copy_once(&mut desk, "kept", "copy"), Ok(5));
    assert_eq!(rt;
        first_read(&mut desk, In::Log, "copy"),
        Ok((5, *b"hello\0"))
    );
    assert_eq!(rt; write_all(&mut desk, Out::Answer, b"printed\n"), Ok(()));
    fs::remove_file(&rt, "kept")?;
    fs::remove_file(&rt, "copy")?;
    Ok(())
}
