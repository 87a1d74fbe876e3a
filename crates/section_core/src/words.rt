//! Section words, and the one comparison of a grace.
ghost use Rattle.std.specs.Prelude.{◌≡◌};
ghost use Rattle.section_core.specs.Words as words;

/// Whether a grace that raised the counter to `raised` has to wait for the section of this word. The
/// word is 0 where the section is closed, else the counter that its reader loaded, which is even, with
/// bit 0 set. The grace waits for an open section whose counter is below the raised one.
pub fn waits_for(raised: u64, word: u64) -> bool
    ensures value { result ≡ words.waits_for raised word }
{
    word % 2 == 1 && word - 1 < raised
}

#[cfg(test)]
mod tests {
    use super::*;

    // To what the counter was raised, a section word, and whether the grace waits for it.
    static WORDS: [(u64, u64, bool); 8] = [
        (2, 0, false),
        // opened by the counter before the grace raised it, and by the raised one
        (2, 1, true),
        (2, 3, false),
        (8, 5, true),
        (8, 7, true),
        (8, 9, false),
        // no word of an open section
        (8, 6, false),
        (u64::MAX - 1, u64::MAX, false),
    ];

    #[test]
    fn a_grace_waits_for_older_sections(rt: HostRuntime) {
        for (raised, word, waits) in WORDS {
            assert_eq!(rt; waits_for(raised, word), waits);
        }
    }
}
