//! Finding the head of a text's bucket, inside a section that is opened first.
ghost use Rattle.std.specs.Prelude.{◌≡◌, ◌≤◌};
ghost use Rattle.call_machine.specs.declared.enter.EnterStage.TheVariants as enter;
ghost use Rattle.call_machine.specs.declared.find.FindStage.TheVariants as find;
ghost use Rattle.call_machine.specs.declared.stage.CallStage.TheVariants as stage;
ghost use Rattle.call_machine.specs.Find.{turned_to};
ghost use Rattle.call_machine.specs.Node.{comes_to};
ghost use Rattle.call_machine.specs.Sought.{asked_of};
ghost use Rattle.marked_word.specs.Head.{first_of};
ghost use Rattle.cht_run.specs.Calls.{At};
ghost use Rattle.cht_core.specs.Caused.{MayCause};
ghost use Rattle.cht_run.specs.Begins.{own_at, MayCall};
ghost use Rattle.cht_run.specs.History.{log_of};
ghost use Rattle.cht_run.specs.Seats.{Sits};
ghost use Rattle.cht_run.specs.Walks.{headed, IsWalk};

use crate::layout::{COUNTER, LEVEL, NEW_LEVEL};
use crate::operations::Began;
use crate::seat::Raw;
use crate::table::Cht;
use atomic_step::Step;
use call_machine::find::Walk;
use call_machine::stage::{Along, Request};
use marked_word::{is_redirected, new_level_of, section_word};

/// At the bucket of a text with this hash, in the row of a level.
#[inline(always)]
pub(crate) fn turned_to(walk: Walk, hash: u32, level: u8) -> Walk
    requires level { level ≤ 20 }
    ensures value { result ≡ turned_to hash level walk }
{
    Walk {
        row: level,
        bucket: hash % (1u32 << level),
        ..walk
    }
}

impl Cht {
    /// Loads the grace counter: the call begins.
    #[inline(always)]
    pub(crate) fn enter<'t, M: Began>(
        &self,
        seat: &mut Raw,
        request: &Request<'t>,
        along: &Along,
    ) -> u64
        requires sits { Sits self.now seat.old }
        requires began { M.sight ≡ seat.old.me.0 }
        requires call { MayCall M.sight M.call }
        requires causes { MayCause self.now.origin.table M.sight.number (log_of M.sight.history) (own_at M.sight.seat) M.call }
        requires walk { IsWalk M.sight M.call request.now along.now }
        ensures at { At self.now M.sight M.call request.now seat.new along.now (stage.Find (find.Enter (enter.OpenSection result))) }
    {
        self.begin_load::<M>(seat, Step::LoadCounter, COUNTER)
    }

    /// Loads the grace counter again: the call goes on to another try.
    #[inline(always)]
    pub(crate) fn enter_again<'t, M: Began>(
        &self,
        seat: &mut Raw,
        request: &Request<'t>,
        along: &Along,
    ) -> u64
        requires at { At self.now M.sight M.call request.now seat.old along.now (stage.Find (find.Enter enter.LoadCounter)) }
        ensures at { At self.now M.sight M.call request.now seat.new along.now (stage.Find (find.Enter (enter.OpenSection result))) }
    {
        self.load(seat, Step::LoadCounter, COUNTER)
    }

    /// Opens the seat's section, with the counter that it has loaded.
    #[inline(always)]
    fn open_section<'t, M: Began>(
        &self,
        seat: &mut Raw,
        request: &Request<'t>,
        along: &Along,
        counter: u64,
    )
        requires at { At self.now M.sight M.call request.now seat.old along.now (stage.Find (find.Enter (enter.OpenSection counter))) }
        ensures at { At self.now M.sight M.call request.now seat.new along.now (stage.Find find.LoadLevel) }
    {
        let number = request.number;
        let index = self.layout.section(number);
        let word = section_word(Some(counter));
        self.store(seat, Step::OpenSection { number, counter }, index, word);
    }

    /// Loads the level, and turns to the bucket of the text in its row.
    #[inline(always)]
    fn load_level<'t, M: Began>(
        &self,
        seat: &mut Raw,
        request: &Request<'t>,
        along: &Along,
    ) -> Along
        requires at { At self.now M.sight M.call request.now seat.old along.now (stage.Find find.LoadLevel) }
        ensures at { At self.now M.sight M.call request.now seat.new result (stage.Find find.LoadHead) }
        ensures kept { result.kept ≡ along.now.kept }
    {
        let level = self.load(seat, Step::LoadLevel, LEVEL);
        Along {
            walk: turned_to(along.walk, request.sought.hash, level as u8),
            ..*along
        }
    }

    /// Loads the head of the bucket.
    #[inline(always)]
    fn load_head<'t, M: Began>(&self, seat: &mut Raw, request: &Request<'t>, along: &Along) -> Along
        requires at { At self.now M.sight M.call request.now seat.old along.now (stage.Find find.LoadHead) }
        ensures at { At self.now M.sight M.call request.now seat.new result (headed (asked_of request.now) result) }
        ensures kept { result.kept ≡ along.now.kept }
    {
        let Walk { row, bucket, .. } = along.walk;
        let index = self.layout.head(row, bucket);
        let head = self.load(seat, Step::LoadHead { row, bucket }, index);
        Along {
            walk: Walk { head, ..along.walk },
            ..*along
        }
    }

    /// Loads the new level after a redirect, and turns to the bucket of the text in its row.
    #[inline(always)]
    fn load_new_level<'t, M: Began>(
        &self,
        seat: &mut Raw,
        request: &Request<'t>,
        along: &Along,
    ) -> Along
        requires at { At self.now M.sight M.call request.now seat.old along.now (stage.Find find.LoadNewLevel) }
        ensures at { At self.now M.sight M.call request.now seat.new result (stage.Find find.LoadNewHead) }
        ensures kept { result.kept ≡ along.now.kept }
    {
        let level = self.load(seat, Step::LoadNewLevel, NEW_LEVEL);
        Along {
            walk: turned_to(along.walk, request.sought.hash, new_level_of(level)),
            ..*along
        }
    }

    /// Loads the head of the bucket in the row of the new level.
    #[inline(always)]
    fn load_new_head<'t, M: Began>(
        &self,
        seat: &mut Raw,
        request: &Request<'t>,
        along: &Along,
    ) -> Along
        requires at { At self.now M.sight M.call request.now seat.old along.now (stage.Find find.LoadNewHead) }
        ensures at { At self.now M.sight M.call request.now seat.new result (comes_to (asked_of request.now) result result.walk.head (first_of result.walk.head)) }
        ensures kept { result.kept ≡ along.now.kept }
    {
        let Walk { row, bucket, .. } = along.walk;
        let index = self.layout.head(row, bucket);
        let head = self.load(seat, Step::LoadHead { row, bucket }, index);
        Along {
            walk: Walk { head, ..along.walk },
            ..*along
        }
    }

    /// Finds the head of the text's bucket, after the counter was loaded.
    #[inline(always)]
    pub(crate) fn find<'t, M: Began>(
        &self,
        seat: &mut Raw,
        request: &Request<'t>,
        along: &Along,
        counter: u64,
    ) -> Along
        requires at { At self.now M.sight M.call request.now seat.old along.now (stage.Find (find.Enter (enter.OpenSection counter))) }
        ensures at { At self.now M.sight M.call request.now seat.new result (comes_to (asked_of request.now) result result.walk.head (first_of result.walk.head)) }
        ensures kept { result.kept ≡ along.now.kept }
    {
        self.open_section::<M>(seat, request, along, counter);
        let along = self.load_level::<M>(seat, request, along);
        let along = self.load_head::<M>(seat, request, &along);
        if !is_redirected(along.walk.head) {
            return along;
        }
        let along = self.load_new_level::<M>(seat, request, &along);
        self.load_new_head::<M>(seat, request, &along)
    }
}
