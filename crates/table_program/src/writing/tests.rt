ghost use Rattle.std.specs.Prelude.{◌≤◌, None};

use super::*;

// A page of 16 bytes, which takes at most `step` bytes at a time, and fails where it is full.
#[derive(Drop)]
struct Page {
    bytes: [u8; 16],
    used: usize,
    step: usize,
    faults: u64,
    ghost within: { used ≤ 16 },
}

impl Sink for Page {
    ghost written = { λ _. None };

    ghost faults = { λ page. page.faults };

    fn write_some(&mut self, piece: &[u8]) -> Wrote {
        let count = piece.len().min(self.step).min(16 - self.used);
        if count == 0 {
            self.faults = self.faults.saturating_add(1);
            return Wrote::Failed;
        }
        let end = self.used + count;
        self.bytes[self.used..end].copy_from_slice(&piece[..count]);
        self.used = end;
        Wrote::Bytes(count)
    }
}

#[test]
fn writes_in_pieces_until_the_page_is_full(rt: HostRuntime) {
    let mut page = Page {
        bytes: [b'.'; 16],
        used: 0,
        step: 3,
        faults: 0,
    };
    assert_eq!(rt; write_all(&mut page, b""), Ok(()));
    assert_eq!(rt; write_all(&mut page, b"one two "), Ok(()));
    assert_eq!(rt; write_all(&mut page, b"three"), Ok(()));
    assert_eq!(rt; page.faults, 0);
    assert_eq!(rt; page.bytes.as_slice(), b"one two three...".as_slice());
    assert_eq!(rt; write_all(&mut page, b"four"), Err(WriteFault));
    assert_eq!(rt; page.faults, 1);
    assert_eq!(rt; page.bytes.as_slice(), b"one two threefou".as_slice());
}
