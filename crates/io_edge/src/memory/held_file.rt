ghost use Rattle.std.specs.Prelude.{◌≡◌, IfOk};
ghost use Rattle.std.specs.Str.{bytes_eq};

use std::alloc::{AllocError, Global};
use std::marker::Model;

/// A file in memory.
#[derive(Debug, Drop)]
pub(crate) struct HeldFile {
    name: Vec<u8>,
    bytes: Vec<u8>,
}

impl Model for HeldFile {
    ghost use Rattle.io_edge.specs.MemFilesState.{NamedBytes};

    ghost Value = { NamedBytes };

    ghost view = { λ a. record { name = a.name.items; bytes = a.bytes.items } };
}

impl HeldFile {
    pub(crate) fn new(alloc: Global, name: &str, bytes: &[u8]) -> Result<HeldFile, AllocError>
        ensures { IfOk result (λ file. file ≡ record { name = name.now; bytes = bytes.now }) }
    {
        Ok(HeldFile {
            name: Vec::from_slice(alloc, name.as_bytes())?,
            bytes: Vec::from_slice(alloc, bytes)?,
        })
    }

    pub(crate) fn has_name(&self, name: &[u8]) -> bool
        ensures { result ≡ bytes_eq self.now.name name.now }
    {
        self.name.as_slice() == name
    }

    pub(crate) fn bytes(&self) -> &[u8]
        ensures { result.now ≡ self.now.bytes }
    {
        self.bytes.as_slice()
    }
}
