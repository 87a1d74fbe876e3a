//! The sections of a number of seats, and the graces that wait for them.
ghost use Rattle.std.specs.Prelude.{◌≡◌};
ghost use Rattle.section_core.specs.Sections as sections;

use std::alloc::{AllocError, Global};
use std::marker::Model;

// A grace is begun below this value of the counter alone.
const SPENT: u64 = 0x1_0000_0000_0000;

/// The counter stood at 2^48 or more, so no grace was begun.
#[derive(Clone, Copy, Debug, PartialEq, Eq)]
pub struct Spent {
    pub counter: u64,
}

/// A grace that was begun and may still have to wait. Contracts see its number: how many graces were
/// begun before it.
#[derive(Debug, Drop)]
pub struct PlainGrace {
    number: u64,
}

impl Model for PlainGrace {
    ghost use Rattle.std.specs.Prelude.{ℕ};

    ghost Value = { ℕ };

    ghost view = { λ grace. grace.number };
}

/// How far a grace is.
#[derive(Debug, Drop)]
pub enum PlainCheck {
    /// Each section that was open when the grace began has been left.
    Ready,
    /// The section of this seat was open when the grace began and has not been left since. It is the
    /// lowest such seat.
    Pending { grace: PlainGrace, seat: u32 },
}

/// The sections of a number of seats, each open or not, and the counter that graces raise. Contracts
/// see which sections are open, and for each grace that was begun the sections that it still waits for.
#[derive(Debug, Drop)]
pub struct Sections {
    // The counter before the first grace.
    first: u64,
    // How many graces were begun; each raised the counter by 2.
    begun: u64,
    // Of each seat whose section is open, how many graces had been begun when it was entered.
    entered: Vec<Option<u64>>,
}

impl Model for Sections {
    ghost use Rattle.section_core.specs.Sections.{SectionState, state_of};
    ghost use Rattle.section_core.specs.Sound.{IsSound};

    ghost Value = { SectionState };

    ghost view = { λ sections. state_of sections.first sections.begun sections.entered.items };

    ghost invariant = { λ sections. IsSound sections.first sections.begun sections.entered.items };
}

impl Sections {
    ghost use Rattle.std.specs.Prelude.{◌≡◌, ◌<◌, ◌≤◌, ◌+◌, ◌%◌, ◌^◌, ◌↔◌, [], Some, true, false, replicate, length, slice_get, IfOk, OnOk, IfErr, OnErr, IsErr, IsTrue};
    ghost use Rattle.section_core.specs.Sections.{SectionState, counter_of, Waits, IsOver, IsLowest};
    ghost use Rattle.section_core.specs.Steps.{Enter, Leave, Begin, after_step};
    ghost use Rattle.section_core.specs.Checks.{IfPending};

    /// Sections of so many seats, none of them open, with this counter, which is even.
    pub fn new(alloc: Global, seats: u32, first: u64) -> Result<Sections, AllocError>
        requires even { first % 2 ≡ 0 }
        requires not_spent { first ≤ 2 ^ 48 }
        ensures value { IfOk result (λ sections. sections ≡ record { first = first; inside = replicate seats false; graces = [] }) }
    {
        Ok(Sections {
            first,
            begun: 0,
            entered: vec![in alloc; None; seats as usize]?,
        })
    }

    /// Whether the section of a seat is open, and `None` where there is no such seat.
    pub fn is_open(&self, seat: u32) -> Option<bool>
        ensures value { result ≡ slice_get self.now.inside seat }
    {
        Some(self.entered.get(seat as usize)?.is_some())
    }

    /// Whether this value has begun so many graces that the grace can be one of them.
    pub fn has_begun(&self, grace: &PlainGrace) -> bool
        ensures value { IsTrue result ↔ (grace.now < length self.now.graces) }
    {
        grace.number < self.begun
    }

    /// Opens the section of a seat. No grace that was begun before waits for it.
    pub fn enter(&mut self, seat: u32)
        requires outside { slice_get self.old.inside seat ≡ Some false }
        ensures value { self.new ≡ after_step self.old (Enter seat) }
    {
        self.entered[seat as usize] = Some(self.begun);
    }

    /// Closes the section of a seat. Each grace that waited for it waits for it no longer.
    pub fn leave(&mut self, seat: u32)
        requires inside { slice_get self.old.inside seat ≡ Some true }
        ensures value { self.new ≡ after_step self.old (Leave seat) }
    {
        self.entered[seat as usize] = None;
    }

    /// Begins a grace, which waits for each section that is open now. A caller whose own section were
    /// open would wait for itself. `Spent` comes exactly where the counter is 2^48 or more.
    pub fn begin_grace(&mut self, by: u32) -> Result<PlainGrace, Spent>
        requires outside { slice_get self.old.inside by ≡ Some false }
        ensures number { IfOk result (λ grace. grace ≡ length self.old.graces) }
        ensures value { OnOk result (self.new ≡ after_step self.old Begin) }
        ensures spent { IsErr result ↔ (2 ^ 48 ≤ counter_of self.old) }
        ensures counter { IfErr result (λ spent. spent.counter ≡ counter_of self.old) }
        ensures unchanged { OnErr result (self.new ≡ self.old) }
    {
        let counter = self.first + 2 * self.begun;
        if counter >= SPENT {
            return Err(Spent { counter });
        }
        let number = self.begun;
        self.begun += 1;
        Ok(PlainGrace { number })
    }

    /// Whether a grace that was begun by this value is over, and else for whom it waits.
    pub fn check(&self, grace: PlainGrace) -> PlainCheck
        requires begun { grace < length self.now.graces }
        ensures ready { (result ≡ PlainCheck.Ready) ↔ IsOver self.now grace }
        ensures pending { IfPending result (λ again seat. (again ≡ grace) × IsLowest self.now grace seat) }
    {
        let number = grace.number;
        for seat in 0..self.entered.len() {
            if was_inside(number, self.entered[seat]) {
                return PlainCheck::Pending {
                    grace,
                    seat: seat as u32,
                };
            }
        }
        PlainCheck::Ready
    }
}

// Whether a section that was entered after so many graces, if it is open, was open when the grace of
// this number began.
fn was_inside(number: u64, entered: Option<u64>) -> bool
    ensures value { result ≡ sections.was_inside number entered }
{
    matches!(entered, Some(before) if before <= number)
}

#[cfg(test)]
mod tests {
    use super::*;
    use std::test::Fail;

    enum Step {
        Enter(u32),
        Leave(u32),
        Begin(u32),
        // The grace with this place among those begun waits for this seat.
        Waits(usize, u32),
        // It waits for none.
        Over(usize),
    }

    // What happens to three seats, worked out by hand.
    static RUNS: [&[Step]; 6] = [
        &[
            Step::Enter(1),
            Step::Begin(0),
            Step::Waits(0, 1),
            Step::Leave(1),
            Step::Over(0),
        ],
        // who enters after the grace began is not waited for
        &[Step::Begin(0), Step::Enter(1), Step::Over(0)],
        // nor who left and entered again
        &[
            Step::Enter(1),
            Step::Begin(0),
            Step::Leave(1),
            Step::Enter(1),
            Step::Over(0),
        ],
        // the lowest seat is named that is still in the section of then
        &[
            Step::Enter(2),
            Step::Enter(1),
            Step::Begin(0),
            Step::Waits(0, 1),
            Step::Leave(1),
            Step::Enter(1),
            Step::Waits(0, 2),
            Step::Leave(2),
            Step::Over(0),
        ],
        // two graces at once
        &[
            Step::Enter(1),
            Step::Begin(0),
            Step::Enter(2),
            Step::Begin(0),
            Step::Waits(0, 1),
            Step::Waits(1, 1),
            Step::Leave(1),
            Step::Over(0),
            Step::Waits(1, 2),
            Step::Leave(2),
            Step::Over(1),
        ],
        // the seat that began the grace opens its own section
        &[
            Step::Enter(0),
            Step::Enter(1),
            Step::Leave(0),
            Step::Begin(0),
            Step::Enter(0),
            Step::Waits(0, 1),
            Step::Leave(1),
            Step::Over(0),
        ],
    ];

    // Does one step, and says whether it could be done and went as it should.
    fn meets(
        sections: &mut Sections,
        graces: &mut Vec<Option<PlainGrace>>,
        step: &Step,
    ) -> Result<bool, AllocError> {
        match *step {
            Step::Enter(seat) if sections.is_open(seat) == Some(false) => sections.enter(seat),
            Step::Leave(seat) if sections.is_open(seat) == Some(true) => sections.leave(seat),
            Step::Begin(by) if sections.is_open(by) == Some(false) => {
                graces.push(sections.begin_grace(by).ok())?;
            }
            Step::Waits(place, seat) => return Ok(waits(sections, graces, place) == Some(seat)),
            Step::Over(place) => return Ok(waits(sections, graces, place).is_none()),
            _ => return Ok(false),
        }
        Ok(true)
    }

    // For whom a grace waits, which is put back then.
    fn waits(
        sections: &Sections,
        graces: &mut Vec<Option<PlainGrace>>,
        place: usize,
    ) -> Option<u32> {
        let kept = graces.get_mut(place)?;
        let grace = kept.take()?;
        if !sections.has_begun(&grace) {
            return None;
        }
        match sections.check(grace) {
            PlainCheck::Ready => None,
            PlainCheck::Pending { grace, seat } => {
                *kept = Some(grace);
                Some(seat)
            }
        }
    }

    #[test]
    fn graces_wait_for_who_was_there(rt: HostRuntime) -> Result<(), Fail> {
        for run in RUNS {
            let mut sections = Sections::new(rt.alloc(), 3, 0)?;
            let mut graces = Vec::new(rt.alloc());
            for (place, step) in run.iter().enumerate() {
                assert!(rt; meets(&mut sections, &mut graces, step)?, "step {place}");
            }
        }
        Ok(())
    }

    #[test]
    fn a_counter_of_2_to_the_48_is_spent(rt: HostRuntime) -> Result<(), Fail> {
        let mut sections = Sections::new(rt.alloc(), 1, SPENT - 2)?;
        assert!(rt; sections.begin_grace(0).is_ok());
        match sections.begin_grace(0) {
            Ok(_) => assert!(rt; false),
            Err(spent) => assert_eq!(rt; spent, Spent { counter: SPENT }),
        }
        Ok(())
    }
}
