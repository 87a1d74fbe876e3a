ghost use Rattle.std.specs.Prelude.{◌≡◌, ◌≤◌, ◌++◌, option_map, OnOk, OnErr};
ghost use Rattle.io_edge.specs.Faults.{Rose};
ghost use Rattle.table_program.specs.Writing.{WritesPart};

use io_edge::{Sink, Wrote};

/// A write failed.
#[derive(Clone, Copy, Debug, PartialEq, Eq)]
pub struct WriteFault;

/// Writes the whole text.
///
/// It fails only where the count of faults of `out` rises; then some bytes from the front of the text
/// were written, and not the whole.
pub fn write_all<K: Sink>(out: &mut K, text: &[u8]) -> Result<(), WriteFault>
    ensures ok { OnOk result
        (K.written out.new ≡ option_map (λ w. w ++ text.now) (K.written out.old)) }

    ensures fault { OnErr result (Rose (K.faults out.old) (K.faults out.new)) }
    ensures part { OnErr result (WritesPart text.now (K.written out.old) (K.written out.new)) }

    ensures never_falls { K.faults out.old ≤ K.faults out.new }
{
    let mut done = 0;
    while done < text.len() {
        match out.write_some(&text[done..]) {
            Wrote::Bytes(count) => done += count,
            Wrote::Failed => return Err(WriteFault),
        }
    }
    Ok(())
}

#[cfg(test)]
mod tests;
