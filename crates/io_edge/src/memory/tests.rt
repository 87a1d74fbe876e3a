use super::{MemFiles, MemSink};
use crate::files::{Files, Got, Opened};
use crate::sink::{Sink, Wrote};
use std::test::Fail;

#[test]
fn files_are_read_in_pieces(rt: HostRuntime) -> Result<(), Fail> {
    let mut files = MemFiles::new(rt.alloc(), &[])?;
    files.add("a", b"xyz")?;
    files.add("a", b"later")?;
    let mut buf = [0; 2];

    let Opened::Ready = files.open_file("a") else {
        panic!(rt; "the file did not open")
    };
    let Got::Bytes(2) = files.read_some(&mut buf) else {
        panic!(rt; "the first read gave no two bytes")
    };
    assert_eq!(rt; buf, *b"xy");
    let Got::Bytes(1) = files.read_some(&mut buf) else {
        panic!(rt; "the second read gave no byte")
    };
    assert_eq!(rt; buf, *b"zy");
    assert_eq!(rt; files.read_some(&mut buf), Got::End);
    Ok(())
}

#[test]
fn listed_calls_and_missing_names_fail(rt: HostRuntime) -> Result<(), Fail> {
    let mut files = MemFiles::new(rt.alloc(), &[3])?;
    files.add("empty", b"")?;
    let mut buf = [0; 2];

    assert_eq!(rt; files.open_file("other"), Opened::Failed);
    let Opened::Ready = files.open_file("empty") else {
        panic!(rt; "the file did not open")
    };
    assert_eq!(rt; files.read_some(&mut buf), Got::Failed);
    let Opened::Ready = files.open_file("empty") else {
        panic!(rt; "the file did not open again")
    };
    assert_eq!(rt; files.read_some(&mut buf), Got::End);
    Ok(())
}

#[test]
fn a_sink_takes_what_fits(rt: HostRuntime) -> Result<(), Fail> {
    let mut sink = MemSink::new(rt.alloc(), 4, &[2])?;
    assert_eq!(rt; sink.write_some(b"abc"), Wrote::Bytes(3));
    assert_eq!(rt; sink.write_some(b"de"), Wrote::Failed);
    assert_eq!(rt; sink.write_some(b"fg"), Wrote::Bytes(1));
    assert_eq!(rt; sink.write_some(b"h"), Wrote::Failed);
    assert_eq!(rt; sink.bytes(), b"abcf".as_slice());
    Ok(())
}
