//! The lines of a script that are not passed over.
ghost use Rattle.std.specs.Prelude.{◌≡◌, ℕ, ◌+◌, ◌^◌, ◌<◌, ◌≤◌, [], ◌∷◌, length, None, IfSome};
ghost use Rattle.schedule_sim.specs.Lines.{is_passed_over, lines_of, told_from};

use crate::cut::cut_at;

/// The lines of bytes, as far as they were not taken.
#[derive(Drop)]
pub(crate) struct Lines<'t> {
    /// The bytes behind the lines that were taken.
    rest: &'t [u8],
    /// How many lines were taken.
    pub(crate) taken: u64,
}

/// Whether the line is passed over: it is empty, or begins with `#`.
fn is_passed_over(line: &[u8]) -> bool
    ensures value { result ≡ is_passed_over line.now }
{
    match line {
        [] => true,
        [first, ..] => *first == b'#',
    }
}

impl<'t> Lines<'t> {
    /// All lines of the bytes.
    pub(crate) fn of(bytes: &'t [u8]) -> Lines<'t>
        ensures rest { result.rest.now ≡ bytes.now }
        ensures taken { result.taken ≡ 0 }
    {
        Lines {
            rest: bytes,
            taken: 0,
        }
    }

    /// Takes the next line.
    fn next(&mut self) -> Option<&'t [u8]>
        requires room { self.old.taken + length self.old.rest.now < 2 ^ 64 }
        ensures line { IfSome result (λ line. lines_of self.old.rest.now ≡ line.now ∷ lines_of self.new.rest.now) }
        ensures taken { IfSome result (λ _. self.new.taken ≡ self.old.taken + 1) }
        ensures shorter { IfSome result (λ _. length self.new.rest.now < length self.old.rest.now) }
        ensures none { result ≡ None → lines_of self.old.rest.now ≡ [] }
        ensures untouched { result ≡ None → self.new ≡ self.old }
    {
        if self.rest.is_empty() {
            return None;
        }
        self.taken += 1;
        match cut_at(self.rest, b'\n') {
            Some((line, behind)) => {
                self.rest = behind;
                Some(line)
            },
            None => {
                let line = self.rest;
                self.rest = &[];
                Some(line)
            },
        }
    }

    /// Takes lines up to the next one that is not passed over. Its number is that of the lines taken.
    pub(crate) fn next_told(&mut self) -> Option<&'t [u8]>
        requires room { self.old.taken + length self.old.rest.now < 2 ^ 64 }
        ensures line { IfSome result (λ line.
            told_from (self.old.taken + 1) (lines_of self.old.rest.now)
            ≡ (self.new.taken, line.now) ∷ told_from (self.new.taken + 1) (lines_of self.new.rest.now)) }
        ensures shorter { IfSome result (λ _. length self.new.rest.now < length self.old.rest.now) }
        ensures none { result ≡ None → told_from (self.old.taken + 1) (lines_of self.old.rest.now) ≡ [] }
        ensures taken { result ≡ None → self.new.taken ≡ self.old.taken + length (lines_of self.old.rest.now) }
        ensures room { self.new.taken + length self.new.rest.now ≤ self.old.taken + length self.old.rest.now }
    {
        while let Some(line) = self.next() {
            if !is_passed_over(line) {
                return Some(line);
            }
        }
        None
    }
}
