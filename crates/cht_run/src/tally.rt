//! What the counts of some slots come to.
ghost use Rattle.std.specs.Prelude.{◌≡◌, ◌+◌, ◌<◌, ◌^◌, ℕ};
ghost use Rattle.cht_run.specs.Tallies as tallies;
ghost use Rattle.cht_run.specs.Tallies.{IsTally};

use intern_log::PERMANENT;

/// How many slots are live, how many of them are permanent, and the sum of the counts of the others.
#[derive(Clone, Copy)]
pub struct Tally {
    pub(crate) live: u32,
    pub(crate) permanent: u32,
    pub(crate) references: u64,
}

impl Tally {
    /// No slot.
    pub(crate) const NONE: Tally = Tally {
        live: 0,
        permanent: 0,
        references: 0,
    };

    /// A slot with this count.
    pub(crate) fn of(count: u16) -> Tally
        ensures tally { IsTally (λ (f : ℕ → ℕ). f count) result }
    {
        Tally {
            live: u32::from(count != 0),
            permanent: u32::from(count == PERMANENT),
            references: if count < PERMANENT {
                u64::from(count)
            } else {
                0
            },
        }
    }

    /// Two tallies together.
    pub(crate) fn plus(self, other: Tally) -> Tally
        requires live { self.live + other.live < 2 ^ 32 }
        requires permanent { self.permanent + other.permanent < 2 ^ 32 }
        requires references { self.references + other.references < 2 ^ 64 }
        ensures live { result.live ≡ self.live + other.live }
        ensures permanent { result.permanent ≡ self.permanent + other.permanent }
        ensures references { result.references ≡ self.references + other.references }
    {
        Tally {
            live: self.live + other.live,
            permanent: self.permanent + other.permanent,
            references: self.references + other.references,
        }
    }
}
