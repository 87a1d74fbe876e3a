//! Words that hold one number, or that there is none.
ghost use Rattle.std.specs.Prelude.{◌≡◌, ◌-◌, ◌^◌, ◌<◌, ◌≤◌, IfSome};
ghost use Rattle.marked_word.specs.Number as number;

/// The section word of a reader: 0 while its section is closed, else the counter that it loaded, with
/// bit 0 set.
#[inline]
pub fn section_word(counter: Option<u64>) -> u64
    requires small { IfSome counter (λ n. n < 2 ^ 64 - 1) }
    ensures value { result ≡ number.section_word counter }
{
    match counter {
        None => 0,
        Some(counter) => counter + 1,
    }
}

/// The word of the resize lock: 0 while nobody has it, else the number of its owner plus 1.
#[inline]
pub fn owner_word(owner: Option<u32>) -> u64
    ensures value { result ≡ number.owner_word owner }
{
    match owner {
        None => 0,
        Some(number) => u64::from(number) + 1,
    }
}

/// The word of the new level: 0 while there is none, else the level plus 1.
#[inline]
pub fn new_level_word(level: Option<u8>) -> u64
    ensures value { result ≡ number.new_level_word level }
{
    match level {
        None => 0,
        Some(level) => u64::from(level) + 1,
    }
}

/// The new level whose word this is, where there is one.
#[inline]
pub fn new_level_of(word: u64) -> u8
    requires level { (1 ≤ word) × (word ≤ 256) }
    ensures value { result ≡ number.new_level_of word }
{
    (word - 1) as u8
}

#[cfg(test)]
mod tests {
    use super::*;

    #[test]
    fn numbers(rt: HostRuntime) {
        assert_eq!(rt; section_word(None), 0);
        assert_eq!(rt; section_word(Some(6)), 7);
        assert_eq!(rt; owner_word(None), 0);
        assert_eq!(rt; owner_word(Some(0)), 1);
        assert_eq!(rt; new_level_word(None), 0);
        assert_eq!(rt; new_level_word(Some(20)), 21);
        assert_eq!(rt; new_level_of(21), 20);
    }
}
