//! A first use of the library: two texts and one interner.
#![tactic(auto)]

ghost use Rattle.std.specs.Prelude.{◌≡◌, ◌↔◌, ◌≤◌, IsTrue, IfOk, length};

use intern_log::Kind;
use plain_interner::{Plain, PlainInterned};
use std::alloc::{AllocError, Global};

/// Whether an interner gives both texts one handle: it does exactly where they are equal.
pub fn are_one(alloc: Global, a: &[u8], b: &[u8]) -> Result<bool, AllocError>
    requires a_short { length a.now ≤ 65535 }
    requires b_short { length b.now ≤ 65535 }
    ensures equal { IfOk result (λ one. IsTrue one ↔ a.now ≡ b.now) }
{
    let mut symbols = Plain::new(alloc, Kind::Counted);
    let _first = symbols.intern(a)?;
    Ok(matches!(symbols.intern(b)?, PlainInterned::Taken(_)))
}

#[cfg(test)]
mod tests {
    use super::*;
    use std::test::Fail;

    #[test]
    fn equal_texts_are_one(rt: HostRuntime) -> Result<(), Fail> {
        assert!(rt; are_one(rt.alloc(), b"name", b"name")?);
        assert!(rt; !are_one(rt.alloc(), b"name", b"other")?);
        Ok(())
    }
}
