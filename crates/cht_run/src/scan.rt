//! Looking at the section words once the counter was raised, within whatever call does it.
ghost use Rattle.std.specs.Prelude.{◌≡◌, ◌<◌};
ghost use Rattle.call_machine.specs.declared.grace.Gracing.TheVariants as gracing;
ghost use Rattle.call_machine.specs.Grace as graces;
ghost use Rattle.cht_run.specs.Underway.{IsAt, Further, IsScanning, scanned_to};

use crate::operations::Began;
use crate::seat::Raw;
use crate::table::Cht;
use atomic_step::Step;
use call_machine::Grace;
use call_machine::grace::Gracing;
use section_core::waits_for;
use std::marker::Brand;

/// A call within which the sections are looked at: its machine, by the grace and by what came of the last one.
pub(crate) trait Scanning {
    ghost use Rattle.call_machine.specs.declared.grace.Grace.{Grace};
    ghost use Rattle.call_machine.specs.declared.grace.Gracing.{Gracing};
    ghost use Rattle.call_machine.specs.declared.machine.Machine.{Machine};

    ghost scans: { Grace → Gracing → Machine };
}

impl Scanning for Brand {
    ghost use Rattle.cht_run.specs.Underway.{no_machine};

    ghost scans = { λ _ _. no_machine };
}

/// What comes of the section word of the next number: it is waited for, or the number after it comes.
#[inline(always)]
pub(crate) fn scanned(grace: Grace, seats: u32, word: u64) -> (Grace, Gracing)
    requires inside { grace.next < seats }
    ensures value { result ≡ graces.scanned seats grace word }
{
    if waits_for(grace.raised, word) {
        return (grace, Gracing::Waits);
    }
    let next = grace.next + 1;
    if next == seats {
        (grace, Gracing::Over)
    } else {
        (Grace { next, ..grace }, Gracing::Goes)
    }
}

impl Cht {
    /// Looks at the section word of the next number.
    #[inline(always)]
    fn scan_section<M: Began, W: Scanning>(&self, seat: &mut Raw, grace: &mut Grace) -> Gracing
        requires scanning { IsScanning self.now.origin.table.shape.seats W.scans }
        requires at { IsAt self.now M.sight M.call seat.old (W.scans grace.old gracing.Goes) }
        ensures on { Further self.now M.sight M.call seat.new (W.scans grace.old gracing.Goes) (W.scans grace.new result) }
        ensures next { result ≡ gracing.Goes → grace.old.next < grace.new.next }
    {
        let number = grace.next;
        let index = self.layout.section(number);
        let word = self.load(seat, Step::LoadSection { number }, index);
        let (then, came) = scanned(*grace, self.origin.table.shape.seats, word);
        *grace = then;
        came
    }

    /// Looks at the section words from the next number on: whether none is waited for any more.
    pub(crate) fn scan<M: Began, W: Scanning>(&self, seat: &mut Raw, grace: &mut Grace) -> bool
        requires scanning { IsScanning self.now.origin.table.shape.seats W.scans }
        requires at { IsAt self.now M.sight M.call seat.old (W.scans grace.old gracing.Goes) }
        ensures on { Further self.now M.sight M.call seat.new (W.scans grace.old gracing.Goes) (W.scans grace.new (scanned_to result)) }
    {
        loop {
            match self.scan_section::<M, W>(seat, grace) {
                Gracing::Goes => {}
                Gracing::Waits => return false,
                Gracing::Over => return true,
            }
        }
    }
}
