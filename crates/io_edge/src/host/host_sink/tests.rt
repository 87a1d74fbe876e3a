use super::HostSink;
use crate::sink::{Sink, Wrote};
use std::cell::Cell;
use std::fmt::Display;
use std::io;

/// An output that takes one byte, and then none.
#[derive(Drop)]
struct OneByteOutput {
    full: Cell<bool>,
}

impl Print for OneByteOutput {
    fn print<D: Display + Drop>(&self, _value: D) -> io::Result<()> {
        Err(io::ErrorKind::Unsupported.into())
    }

    fn println<D: Display + Drop>(&self, _value: D) -> io::Result<()> {
        Err(io::ErrorKind::Unsupported.into())
    }

    fn write_all(&self, _bytes: &[u8]) -> io::Result<()> {
        Err(io::ErrorKind::Unsupported.into())
    }

    fn write_some(&self, bytes: &[u8]) -> io::Result<usize> {
        if bytes.is_empty() || self.full.replace(true) {
            return Ok(0);
        }
        Ok(1)
    }
}

#[test]
fn a_short_write_is_told_as_short(rt: HostRuntime) {
    let full = Cell::new(false);
    let mut sink = HostSink::new(OneByteOutput { full });
    assert_eq!(rt; sink.write_some(b"abc"), Wrote::Bytes(1));
    assert_eq!(rt; sink.write_some(b"bc"), Wrote::Failed);
    assert_eq!(rt; sink.write_some(b"bc"), Wrote::Failed);
}
