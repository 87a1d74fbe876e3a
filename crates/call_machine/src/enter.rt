//! Opening a section: the counter is loaded, and stored with bit 0 set.
ghost use Rattle.std.specs.Prelude.{◌≡◌};
ghost use Rattle.call_machine.specs.Enter as enter;

use atomic_step::Step;

/// Where a call stands that opens its section.
#[derive(Clone, Copy, Debug, PartialEq, Eq)]
pub enum EnterStage {
    LoadCounter,
    OpenSection { counter: u64 },
}

impl EnterStage {
    /// The step of the stage, by the seat of this number.
    pub(crate) fn step(self, number: u32) -> Step
        ensures value { result ≡ (enter.enter_row number self).step }
    {
        match self {
            EnterStage::LoadCounter => Step::LoadCounter,
            EnterStage::OpenSection { counter } => Step::OpenSection { number, counter },
        }
    }

    /// What comes of the word that was found: the next stage, or `None` inside the section.
    pub(crate) fn next(self, number: u32, word: u64) -> Option<EnterStage>
        ensures value { result ≡ (enter.enter_row number self).next word }
    {
        match self {
            EnterStage::LoadCounter => Some(EnterStage::OpenSection { counter: word }),
            EnterStage::OpenSection { .. } => None,
        }
    }
}
