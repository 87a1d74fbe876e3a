//! Laws of a grace: which sections it waits for, and that it looks at each number.
//! Each function does nothing: its contract is the law.
ghost use Rattle.std.specs.Prelude.{◌≡◌, ℕ, ◌+◌, ◌-◌, ◌%◌, ◌<◌, ◌⊎◌};
ghost use Rattle.call_machine.specs.declared.grace.Grace.{Grace};
ghost use Rattle.call_machine.specs.declared.grace.GraceStage.TheVariants.{RaiseCounter, LoadSection};
ghost use Rattle.call_machine.specs.declared.grace.Gracing.TheVariants.{Goes, Waits, Over};
ghost use Rattle.call_machine.specs.Grace.{grace_row};

/// A grace begins with the counter that it raised by 2, at the first number.
pub fn graces_begin_with_the_raised_counter()
    ensures law { (seats word : ℕ) (g : Grace) → (grace_row seats g RaiseCounter).next word ≡ (record { raised = word + 2; next = 0 }, Goes) }
{}

/// A grace waits for a number only where its section is open with a counter below the raised one.
pub fn a_grace_waits_for_older_sections_alone()
    ensures law { (seats word : ℕ) (g h : Grace) → (grace_row seats g LoadSection).next word ≡ (h, Waits) → (word % 2 ≡ 1) × (word - 1 < g.raised) × (h ≡ g) }
{}

/// A number is passed only where its section is closed, or was opened with the raised counter or a later one.
pub fn passed_numbers_are_closed_or_newer()
    ensures law { (seats word : ℕ) (g h : Grace) → (grace_row seats g LoadSection).next word ≡ (h, Goes) → ((word % 2 ≡ 0) ⊎ (g.raised < word)) × (h.next ≡ g.next + 1) × (h.raised ≡ g.raised) }
{}

/// So is the last number, and a grace is over behind it alone.
pub fn a_grace_is_over_behind_the_last_number()
    ensures law { (seats word : ℕ) (g h : Grace) → (grace_row seats g LoadSection).next word ≡ (h, Over) → ((word % 2 ≡ 0) ⊎ (g.raised < word)) × (g.next + 1 ≡ seats) }
{}
