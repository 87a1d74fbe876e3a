use crate::files::{Files, Got, Opened};
use crate::host::{HostFiles, HostSink};
use crate::pace::{NoPace, Pace};
use crate::sink::{Sink, Wrote};
use std::test::Fail;
use std::{env, fs, process};

#[test]
fn a_file_of_the_system_is_read(rt: HostRuntime) -> Result<(), Fail> {
    let mut path = env::temp_dir(&rt)?;
    let name = format!(in rt.alloc(); "io_edge_{}", process::id(rt.process()))?;
    path.push(name.as_str())?;
    fs::write(&rt, path.as_str(), b"xyz")?;

    let mut files = HostFiles::new(rt);
    let mut buf = [0; 8];
    let Opened::Ready = files.open_file(path.as_str()) else {
        panic!(rt; "the file did not open")
    };
    let Got::Bytes(3) = files.read_some(&mut buf) else {
        panic!(rt; "the read gave no three bytes")
    };
    assert_eq!(rt; files.read_some(&mut buf), Got::End);
    assert_eq!(rt; buf, *b"xyz\0\0\0\0\0");

    fs::remove_file(&rt, path.as_str())?;
    assert_eq!(rt; files.open_file(path.as_str()), Opened::Failed);
    Ok(())
}

#[test]
fn standard_output_takes_bytes(rt: HostRuntime) {
    let mut sink = HostSink::new(rt);
    assert_eq!(rt; sink.write_some(b"\n"), Wrote::Bytes(1));
}

#[test]
fn no_pace_returns() {
    NoPace.before(0, 0);
}
