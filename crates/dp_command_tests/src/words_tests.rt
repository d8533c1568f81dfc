use crate::runs::{MODEL, desk_of};
use dp_command::{Command, read_words, run};
use dp_desk::Out;
use dp_pool::Open;
use std::test::Fail;

#[test]
fn words_are_commands(rt: HostRuntime) -> Result<(), Fail> {
    let check = Command::Check {
        model: "show",
        log: "check",
    };
    assert_eq!(rt; read_words(&["check", "show", "check"]), Some(check));
    assert_eq!(rt;
        read_words(&["show", "show"]),
        Some(Command::Show { log: "show" })
    );
    assert_eq!(rt; read_words(&["show", "m", "l"]), None);
    let process = Command::Process {
        model: "process",
        scaffold: "s",
        out: "m",
        workers: 1,
    };
    assert_eq!(rt;
        read_words(&["process", "process", "s", "m"]),
        Some(process)
    );
    Ok(())
}

#[test]
fn a_number_of_nogoods_is_an_option(rt: HostRuntime) -> Result<(), Fail> {
    let rows = [
        ("1", 1),
        ("0001", 1),
        ("0000000001", 1),
        ("4000000000", 4_000_000_000),
        ("1234567890", 1_234_567_890),
    ];
    for (digits, conflicts) in rows {
        let solve = Command::Solve {
            model: "solve",
            out: "--conflicts",
            conflicts,
        };
        assert_eq!(rt;
            read_words(&["solve", "solve", "--conflicts", "--conflicts", digits]),
            Some(solve)
        );
    }
    let solve = Command::Solve {
        model: "m",
        out: "o",
        conflicts: 1_000_000,
    };
    assert_eq!(rt; read_words(&["solve", "m", "o"]), Some(solve));
    let prove = Command::Prove {
        model: "--conflicts",
        workers: 1,
        conflicts: 1_000_000,
    };
    assert_eq!(rt; read_words(&["prove", "--conflicts"]), Some(prove));
    let prove = Command::Prove {
        model: "process",
        workers: 1,
        conflicts: 12,
    };
    assert_eq!(rt;
        read_words(&["prove", "process", "--conflicts", "12"]),
        Some(prove)
    );
    for digits in [
        "",
        "0",
        "0000000000",
        "00000000001",
        "4000000001",
        "9999999999",
        "99999999999",
        "+1",
        "-1",
        "1 ",
        " 1",
        "1_0",
        "1.0",
        "0x1",
        "one",
    ] {
        assert_eq!(rt;
            read_words(&["solve", "m", "o", "--conflicts", digits]),
            None
        );
        assert_eq!(rt; read_words(&["prove", "m", "--conflicts", digits]), None);
    }
    Ok(())
}

#[test]
fn a_number_of_workers_is_an_option(rt: HostRuntime) -> Result<(), Fail> {
    for (digits, workers) in [("1", 1), ("0000000064", 64), ("64", 64), ("07", 7)] {
        let process = Command::Process {
            model: "m",
            scaffold: "--workers",
            out: "2",
            workers,
        };
        assert_eq!(rt;
            read_words(&["process", "m", "--workers", "2", "--workers", digits]),
            Some(process)
        );
        let prove = Command::Prove {
            model: "m",
            workers,
            conflicts: 9,
        };
        assert_eq!(rt;
            read_words(&["prove", "m", "--workers", digits, "--conflicts", "9"]),
            Some(prove)
        );
        assert_eq!(rt;
            read_words(&["prove", "m", "--conflicts", "9", "--workers", digits]),
            Some(prove)
        );
        let usual = Command::Prove {
            model: "m",
            workers,
            conflicts: 1_000_000,
        };
        assert_eq!(rt;
            read_words(&["prove", "m", "--workers", digits]),
            Some(usual)
        );
    }
    for digits in [
        "",
        "0",
        "65",
        "00000000001",
        "4294967297",
        "+1",
        "-1",
        "1 ",
        "two",
    ] {
        assert_eq!(rt;
            read_words(&["process", "m", "s", "o", "--workers", digits]),
            None
        );
        assert_eq!(rt; read_words(&["prove", "m", "--workers", digits]), None);
    }
    Ok(())
}

#[test]
fn a_size_is_asked_for(rt: HostRuntime) -> Result<(), Fail> {
    for (digits, n) in [("1", 1), ("0000005000", 5000), ("0012", 12)] {
        let wanted = Command::Gen {
            n,
            model: "gen",
            scaffold: "s",
        };
        assert_eq!(rt; read_words(&["gen", digits, "gen", "s"]), Some(wanted));
    }
    for digits in [
        "",
        "0",
        "5001",
        "00000000001",
        "4294967297",
        "+1",
        "-1",
        "1.0",
    ] {
        assert_eq!(rt; read_words(&["gen", digits, "m", "s"]), None);
    }
    Ok(())
}

#[test]
fn words_are_judged_first(rt: HostRuntime) -> Result<(), Fail> {
    let alloc = rt.alloc();
    let none: [&str; 0] = [];
    let rows = [
        none.as_slice(),
        &["check"],
        &["check", "m"],
        &["check", "m", "l", "x"],
        &["solve"],
        &["solve", "m"],
        &["Solve", "m", "o"],
        &["solve", "m", "o", "--conflicts"],
        &["solve", "m", "o", "--conflicts", "0"],
        &["solve", "m", "o", "--Conflicts", "1"],
        &["solve", "m", "o", "--conflicts", "1", "x"],
        &["solve", "m", "o", "--conflicts", "1", "--conflicts", "2"],
        &["solve", "--conflicts", "1", "m", "o"],
        &["prove"],
        &["prove", "m", "o"],
        &["prove", "m", "--conflicts"],
        &["prove", "m", "--conflicts", "0"],
        &["prove", "m", "o", "--conflicts", "1"],
        &["prove", "m", "--conflicts", "1", "x"],
        &["prove", "--conflicts", "1", "m"],
        &["Prove", "m"],
        &["Check", "m", "l"],
        &["show"],
        &["show", "l", "x"],
        &["Show", "l"],
        &["l", "show"],
        &["process"],
        &["process", "m", "l"],
        &["process", "m", "l", "o", "x"],
        &["Process", "m", "l", "o"],
        &["process", "m", "l", "o", "--workers"],
        &["process", "m", "l", "o", "--workers", "0"],
        &["process", "m", "l", "o", "--workers", "65"],
        &["process", "m", "l", "o", "--conflicts", "1"],
        &["process", "m", "l", "o", "--workers", "1", "--workers", "2"],
        &["process", "--workers", "1", "m", "l", "o"],
        &["solve", "m", "o", "--workers", "1"],
        &["prove", "m", "--workers", "1", "--workers", "2"],
        &["prove", "m", "--workers", "1", "--conflicts"],
        &["gen"],
        &["gen", "1", "m"],
        &["gen", "5001", "m", "l"],
        &["gen", "m", "l", "1"],
        &["gen", "1", "m", "l", "x"],
        &["Gen", "1", "m", "l"],
    ];
    for words in rows {
        let mut desk = desk_of(alloc, MODEL, b"", 1_000_000, &[2])?;
        assert_eq!(rt; run(&rt, alloc, words, &mut desk, &Open), 2, "at {words:?}");
        assert_eq!(rt;
            desk.written(Out::Answer),
            Some(b"words not understood\n".as_slice())
        );
        assert_eq!(rt; desk.written(Out::First), None, "at {words:?}");
        assert_eq!(rt; desk.written(Out::Second), None, "at {words:?}");
    }
    let mut desk = desk_of(alloc, MODEL, b"", 4, &[3])?;
    assert_eq!(rt;
        run(&rt, alloc, &["check"], &mut desk, &Open),
        6,
        "the third write fails"
    );
    assert_eq!(rt; desk.written(Out::Answer), Some(b"words no".as_slice()));
    Ok(())
}
