use crate::{ScriptFault, parse_script};
use intern_log::Kind;
use std::test::Fail;

/// The number of the first line that is not of the form, or 0 where each one is.
fn fault_of(rt: &HostRuntime, bytes: &[u8]) -> u64 {
    match parse_script(rt.alloc(), bytes) {
        Err(ScriptFault::Line { number }) => number,
        _ => 0,
    }
}

/// Scripts, and the first line of each that is not of the form.
static SCRIPTS: [(&[u8], u64); 53] = [
    (b"\0", 1),
    (b"\0\0\0\n\0", 1),
    (b"shape counted 8 1 3 4 4 0\n\0\n", 2),
    (b"shape counted 8 1 3 4 4 0\nrun 0\r\n", 2),
    (b"shape counted 8 1 3 4 4 0\nrun  0", 2),
    (b"shape counted 8 1 3 4 4 0\nrun 00", 2),
    (b"shape counted 8 1 3 4 4 0\nrun -1", 2),
    (
        b"shape counted 8 1 3 4 4 0\nrun 99999999999999999999999999999999999999999",
        2,
    ),
    (b"shape counted 8 1 3 4 4 0\nrun", 2),
    (b"", 1),
    (b"\n", 2),
    (b"#", 2),
    (b"#\n\n", 3),
    (b"#\n\nshape", 3),
    (b"shape counted 8 1 3 4 4 0", 0),
    (b"\n# a\nshape weak 8 1 3 4 4 2\n", 0),
    (b"shape counted 0 1 3 4 4 0", 1),
    (b"shape counted 8 1 3 4 4 1", 1),
    (b"shape counted 8 1 3 4 4 281474976710656", 0),
    (b"shape counted 8 1 3 4 4 281474976710658", 1),
    (b"shape counted 8 1 3 4 16 0", 0),
    (b"shape counted 8 1 3 4 17 0", 1),
    (b"shape counted 8 1 3 4 4 0 ", 1),
    (b"shape  counted 8 1 3 4 4 0", 1),
    (b"shape counted 8 1 3 4 4 0\r\n", 1),
    (b"shape counted 08 1 3 4 4 0", 1),
    (b"shape counted +8 1 3 4 4 0", 1),
    (b"shape counted 4294967304 1 3 4 4 0", 1),
    (b"shape counted 8 1 259 4 4 0", 1),
    (b"shape counted 209708 1 3 4 4 0", 0),
    (b"shape counted 209709 1 3 4 4 0", 1),
    (b"shape Counted 8 1 3 4 4 0", 1),
    (b"run 0\nshape counted 8 1 3 4 4 0", 1),
    (b"shape counted 8 1 3 4 4 0\nshape counted 8 1 3 4 4 0", 2),
    (b"shape counted 8 1 3 4 4 0\n ", 2),
    (b"shape counted 8 1 3 4 4 0\n\n\n #", 4),
    (b"shape counted 8 1 3 4 4 0\nstep 0 0", 2),
    (b"shape counted 8 1 3 4 4 0\nstep 0 1048577", 2),
    (
        b"shape counted 8 1 3 4 4 0\nstep 0 1048576\nrun 18446744073709551615\nrun 18446744073709551616",
        4,
    ),
    (b"shape counted 8 1 3 4 4 0\nuntil 0 K0", 2),
    (b"shape counted 8 1 3 4 4 0\nuntil 0 K26\nuntil 0 K27", 3),
    (b"shape counted 8 1 3 4 4 0\nuntil 0 K01", 2),
    (b"shape counted 8 1 3 4 4 0\ncall 0 kill 0.0", 2),
    (
        b"shape weak 8 1 3 4 4 0\ncall 0 kill 0.0\ncall 0 drop 0.0",
        3,
    ),
    (b"shape weak 8 1 3 4 4 0\ncall 0 permanent 0.0", 2),
    (
        b"shape counted 8 1 3 4 4 0\ncall 0 drop 18446744073709551615.18446744073709551615\ncall 0 drop 0.0.0",
        3,
    ),
    (b"shape counted 8 1 3 4 4 0\ncall 0 intern \x7f", 2),
    (b"shape counted 8 1 3 4 4 0\ncall 0 intern ", 2),
    (
        b"shape counted 8 1 3 4 4 0\ncall 0 intern ~!\ncall 0 lookup a\0",
        3,
    ),
    (b"shape counted 8 1 3 4 4 0\ncall 0 intern a b", 2),
    (
        b"shape counted 8 1 3 4 4 0\ncall 0 clean\ncall 0 grow\ncall 0 shrink\ncall 0 poll\nchain 3 1\nrehash\nrehash ",
        8,
    ),
    (b"shape counted 8 1 3 4 4 0\ncall 0 clean 0", 2),
    (b"shape counted 8 1 3 4 4 0\ncall 0 sweep a", 2),
];

#[test]
fn faults_are_told_by_their_line(rt: HostRuntime) {
    for (bytes, number) in &SCRIPTS {
        assert_eq!(rt; fault_of(&rt, *bytes), *number);
    }
}

/// One line of each form.
static EACH_FORM: &[u8] =
    b"# first\nshape counted 8 1 3 4 4 6\ncall 1 intern a#\n\ncall 2 drop 4.7\nstep 0 5\nuntil 1 K7\n#\nrun 3\nchain 3 1\nrehash";

/// Its lines.
static ITS_LINES: [&str; 7] = [
    "Numbered { number: 3, line: Call { seat: 1, asked: Intern([97, 35]) } }",
    "Numbered { number: 5, line: Call { seat: 2, asked: Drop { slot: 4, generation: 7 } } }",
    "Numbered { number: 6, line: Step { seat: 0, steps: 5 } }",
    "Numbered { number: 7, line: Until { seat: 1, kind: K7 } }",
    "Numbered { number: 9, line: Run { seat: 3 } }",
    "Numbered { number: 10, line: Chain { row: 3, bucket: 1 } }",
    "Numbered { number: 11, line: Rehash }",
];

#[test]
fn scripts_are_read(rt: HostRuntime) -> Result<(), Fail> {
    let Ok(script) = parse_script(rt.alloc(), EACH_FORM) else {
        return Err(Fail::new("no script"));
    };
    assert_eq!(rt; script.kind, Kind::Counted);
    assert_eq!(rt; script.shape.slots, 8);
    assert_eq!(rt; script.shape.text_words, 1);
    assert_eq!(rt; script.shape.min_level, 3);
    assert_eq!(rt; script.shape.max_level, 4);
    assert_eq!(rt; script.shape.seats, 4);
    assert_eq!(rt; script.first_counter, 6);
    assert_eq!(rt; script.lines.len(), 7);
    for (numbered, text) in script.lines.iter().zip(ITS_LINES.iter()) {
        let printed = format!(in rt.alloc(); "{numbered:?}")?;
        assert_eq!(rt; printed.as_str(), *text);
    }
    Ok(())
}

/// Scripts that are of the form.
static LOST_INSERTION: &[u8] =
    b"shape counted 8 1 3 4 4 0\ncall 1 intern a\nuntil 1 K7\ncall 2 intern a\nrun 2\nrun 1\ncall 1 intern a\nrun 1\n";

static OPEN_SECTION: &[u8] =
    b"shape counted 8 1 3 4 4 0\ncall 0 intern a\nrun 0\ncall 0 drop 0.0\nrun 0\ncall 1 lookup a\nuntil 1 K11\ncall 0 clean\nrun 0\ncall 0 poll\nrun 0\nrun 1\ncall 0 poll\nrun 0\n";

static GROWN_AND_SHRUNK: &[u8] =
    b"shape counted 8 1 3 4 4 0\ncall 0 intern y\nrun 0\nchain 3 1\ncall 0 grow\nrun 0\ncall 0 poll\nrun 0\nchain 4 9\ncall 0 shrink\nrun 0\n";

static STALE_LISTING: &[u8] =
    b"shape weak 2 1 3 3 2 0\ncall 0 intern a\nrun 0\ncall 0 kill 0.0\nrun 0\ncall 0 kill 0.0\nrun 0\n";

static MADE_ANEW: &[u8] =
    b"shape counted 8 1 3 4 4 0\ncall 0 intern Aa\nrun 0\nchain 3 0\nrehash\nchain 3 5\ncall 1 lookup Aa\nrun 1\n";

#[test]
fn whole_schedules_are_of_the_form(rt: HostRuntime) {
    assert_eq!(rt; fault_of(&rt, LOST_INSERTION), 0);
    assert_eq!(rt; fault_of(&rt, OPEN_SECTION), 0);
    assert_eq!(rt; fault_of(&rt, GROWN_AND_SHRUNK), 0);
    assert_eq!(rt; fault_of(&rt, STALE_LISTING), 0);
    assert_eq!(rt; fault_of(&rt, MADE_ANEW), 0);
}

#[test]
fn long_lines_are_read(rt: HostRuntime) -> Result<(), Fail> {
    let mut bytes = Vec::from_slice(rt.alloc(), b"shape counted 8 1 3 4 4 0\ncall 0 intern ")?;
    for _ in 0..7_000 {
        bytes.extend_from_slice(b"0123456789")?;
    }
    assert_eq!(rt; fault_of(&rt, bytes.as_slice()), 0);
    bytes.extend_from_slice(b"\n#")?;
    for _ in 0..7_000 {
        bytes.extend_from_slice(b"\r        ")?;
    }
    assert_eq!(rt; fault_of(&rt, bytes.as_slice()), 0);
    bytes.extend_from_slice(b"\n ")?;
    assert_eq!(rt; fault_of(&rt, bytes.as_slice()), 4);
    Ok(())
}
