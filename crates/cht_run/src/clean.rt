//! The poll of a clean: bucket after bucket is locked, its dead nodes are unlinked, and after a grace their slots are
//! freed.
ghost use Rattle.std.specs.Prelude.{◌≡◌, ◌<◌};
ghost use Rattle.table_shape.specs.declared.shape.Shape.{Shape};
ghost use Rattle.table_shape.specs.Shape.{IsSound};
ghost use Rattle.atomic_step.specs.SoundStep.{CanBeFound};
ghost use Rattle.call_machine.specs.declared.clean.CleanStage.TheVariants as stage;
ghost use Rattle.call_machine.specs.declared.grace.GraceStage.TheVariants.{RaiseCounter, LoadSection};
ghost use Rattle.call_machine.specs.declared.lock.LockStage.TheVariants as lock;
ghost use Rattle.call_machine.specs.Clean.{goes, cleans_on, clean_row, graces_on, locks_on, raises, next_bucket, waits_at};
ghost use Rattle.call_machine.specs.Pass.{passes_on};
ghost use Rattle.call_machine.specs.SoundClean.{IsSoundClean};
ghost use Rattle.call_machine.specs.SoundPass.{IsSoundCleaning};
ghost use Rattle.cht_run.specs.Cleans.{cleaned, passes_in, frees_in, scans_in, comes_to, went_on, ended, anew, PendsAt, Pends, IsOn};
ghost use Rattle.cht_run.specs.Pending.{CleanPends, IsCleanHeld};
ghost use Rattle.cht_run.specs.Runs.{IsPolling};
ghost use Rattle.cht_run.specs.Underway.{IsAt, HasLess, Further, Onward, IsDone, looked_at, tried_lock, scanned_to};

use crate::heads::plain_head;
use crate::layout::{COUNTER, RESIZE_LOCK};
use crate::operations::Began;
use crate::pass::{Freeing as Frees, Passing};
use crate::polls::PollEnd;
use crate::scan::{Scanning, scanned};
use crate::seat::Raw;
use crate::table::Cht;
use atomic_step::Step;
use call_machine::Grace;
use call_machine::clean::{Clean, CleanAlong, CleanStage, Freeing};
use call_machine::grace::{GraceStage, Gracing, LAST_GRACE};
use call_machine::lock::LockStage;
use call_machine::pass::{BATCH, Cleaning};
use marked_word::{first_of, is_locked, locked, owner_word};
use std::marker::Brand;

/// With what a clean goes on.
#[derive(Clone, Copy)]
pub(crate) enum CleanNext {
    /// The bucket is locked.
    Bucket,
    /// The slots that wait are freed after a grace.
    Free(Freeing),
    /// The resize lock is given back.
    End,
}

/// A clean goes on, or its poll ends.
#[derive(Clone, Copy)]
pub(crate) enum CleanWent {
    Goes(CleanNext),
    Ends(PollEnd),
}

/// The bucket is waited for.
fn waits_for_bucket(clean: &mut Clean) -> CleanWent
    ensures value { went_on clean.new result ≡ waits_at clean.old.along }
    ensures pends { CleanPends clean.new.along clean.new.stage }
{
    let Cleaning { row, bucket, .. } = clean.along.cleaning;
    clean.stage = CleanStage::Lock(LockStage::LoadHead);
    CleanWent::Ends(PollEnd::PendingBucket { row, bucket })
}

/// What comes once the bucket is unlocked. Where so many slots wait that no more can, they are freed, and it is cleaned
/// again; else the next one comes, or the end.
#[inline(always)]
fn next_after(along: &mut CleanAlong) -> CleanNext
    requires sound { (shape : Shape) × IsSound shape × IsSoundCleaning shape along.old.cleaning }
    ensures value { comes_to along.new result ≡ next_bucket along.old }
{
    if along.cleaning.waiting.len() == BATCH {
        along.count_pass();
        return CleanNext::Free(Freeing::Again);
    }
    let next = along.cleaning.bucket + 1;
    if next < 1 << along.cleaning.row {
        along.cleaning.bucket = next;
        along.full_passes = 0;
        return CleanNext::Bucket;
    }
    if along.cleaning.waiting.is_empty() {
        CleanNext::End
    } else {
        CleanNext::Free(Freeing::Last)
    }
}

impl Cht {
    /// Loads the head of the bucket.
    #[inline(always)]
    fn look_at_bucket<M: Began>(&self, seat: &mut Raw, along: &CleanAlong) -> u64
        requires at { IsAt self.now M.sight M.call seat.old (cleaned M.sight (goes along.now (stage.Lock lock.LoadHead))) }
        ensures on { Further self.now M.sight M.call seat.new (cleaned M.sight (goes along.now (stage.Lock lock.LoadHead))) (cleaned M.sight (locks_on along.now (looked_at result))) }
    {
        let Cleaning { row, bucket, .. } = along.cleaning;
        let index = self.layout.head(row, bucket);
        self.load(seat, Step::LoadHead { row, bucket }, index)
    }

    /// Locks the bucket, whose head was this: whether no other was faster.
    #[inline(always)]
    fn lock_bucket<M: Began>(&self, seat: &mut Raw, along: &CleanAlong, head: u64) -> bool
        requires at { IsAt self.now M.sight M.call seat.old (cleaned M.sight (goes along.now (stage.Lock (lock.LockHead head)))) }
        ensures on { Further self.now M.sight M.call seat.new (cleaned M.sight (goes along.now (stage.Lock (lock.LockHead head)))) (cleaned M.sight (locks_on along.now (tried_lock head result))) }
    {
        let Cleaning { row, bucket, .. } = along.cleaning;
        let index = self.layout.head(row, bucket);
        let step = Step::LockHead { row, bucket, head };
        self.compare_exchange(seat, step, index, head, locked(head)) == head
    }

    /// Unlinks the dead nodes of the locked bucket, from its first node on.
    fn clean_chain<M: Began, W: Passing>(
        &self,
        seat: &mut Raw,
        along: &mut CleanAlong,
        first: Option<u32>,
    )
        requires within { W.passes ≡ passes_in M.sight along.old }
        requires at { IsAt self.now M.sight M.call seat.old (cleaned M.sight (goes along.old (cleans_on (passes_on first)))) }
        requires polls { IsPolling self.now.origin.table.shape (cleaned M.sight (goes along.old (cleans_on (passes_on first)))) }
        ensures on { Onward self.now M.sight M.call seat.new (cleaned M.sight (goes along.old (cleans_on (passes_on first)))) (cleaned M.sight (goes along.new stage.UnlockHead)) }
    {
        let mut next = first;
        while let Some(slot) = next {
            next = self.pass_node::<M, W>(seat, &mut along.cleaning, slot);
        }
    }

    /// Takes the lock off the bucket.
    #[inline(always)]
    fn leave_bucket<M: Began>(&self, seat: &mut Raw, along: &mut CleanAlong) -> CleanNext
        requires at { IsAt self.now M.sight M.call seat.old (cleaned M.sight (goes along.old stage.UnlockHead)) }
        ensures on { Further self.now M.sight M.call seat.new (cleaned M.sight (goes along.old stage.UnlockHead)) (cleaned M.sight (comes_to along.new result)) }
    {
        let Cleaning {
            row,
            bucket,
            first,
            ..
        } = along.cleaning;
        let index = self.layout.head(row, bucket);
        let step = Step::UnlockHead { row, bucket, first };
        self.store(seat, step, index, plain_head(first));
        next_after(along)
    }

    /// Raises the counter: a grace begins.
    #[inline(always)]
    fn raise<M: Began>(&self, seat: &mut Raw, along: &mut CleanAlong, freeing: Freeing)
        requires at { IsAt self.now M.sight M.call seat.old (cleaned M.sight (goes along.old (stage.Grace freeing RaiseCounter))) }
        ensures on { Further self.now M.sight M.call seat.new (cleaned M.sight (goes along.old (stage.Grace freeing RaiseCounter))) (cleaned M.sight (goes along.new (stage.Grace freeing LoadSection))) }
    {
        let counter = self.fetch_add(seat, Step::RaiseCounter, COUNTER, 2);
        along.grace = Grace {
            raised: counter + 2,
            next: 0,
        };
        along.graces = along.graces.saturating_add(1);
    }

    /// Looks at the sections from the next number on: whether none is waited for any more.
    #[inline(always)]
    fn scan_sections<M: Began, W: Scanning>(
        &self,
        seat: &mut Raw,
        along: &mut CleanAlong,
        freeing: Freeing,
    ) -> bool
        requires within { W.scans ≡ scans_in M.sight along.old freeing }
        requires at { IsAt self.now M.sight M.call seat.old (cleaned M.sight (goes along.old (stage.Grace freeing LoadSection))) }
        ensures on { Further self.now M.sight M.call seat.new (cleaned M.sight (goes along.old (stage.Grace freeing LoadSection))) (cleaned M.sight (graces_on along.new freeing (scanned_to result))) }
    {
        let _freeing = freeing;
        self.scan::<M, W>(seat, &mut along.grace)
    }

    /// Goes on with a bucket whose head was loaded: locks it, unlinks its dead nodes, and takes the lock off.
    fn clean_bucket<M: Began>(&self, seat: &mut Raw, clean: &mut Clean, head: u64) -> CleanWent
        requires at { IsAt self.now M.sight M.call seat.old (cleaned M.sight (locks_on clean.old.along (looked_at head))) }
        requires polls { IsPolling self.now.origin.table.shape (cleaned M.sight (locks_on clean.old.along (looked_at head))) }
        ensures on { Onward self.now M.sight M.call seat.new (cleaned M.sight (locks_on clean.old.along (looked_at head))) (cleaned M.sight (went_on clean.new result)) }
        ensures pends { Pends clean.new result }
    {
        if is_locked(head) {
            return waits_for_bucket(clean);
        }
        if !self.lock_bucket::<M>(seat, &clean.along, head) {
            return waits_for_bucket(clean);
        }
        let first = first_of(head);
        clean.along.cleaning.begin_pass(first);
        self.clean_chain::<M, Brand>(seat, &mut clean.along, first);
        CleanWent::Goes(self.leave_bucket::<M>(seat, &mut clean.along))
    }

    /// Goes on once the sections were looked at: frees the slots that wait, if none is waited for any more.
    fn free_slots<M: Began, W: Frees>(
        &self,
        seat: &mut Raw,
        clean: &mut Clean,
        freeing: Freeing,
        is_over: bool,
    ) -> CleanWent
        requires within { W.frees ≡ frees_in M.sight clean.old.along freeing }
        requires at { IsAt self.now M.sight M.call seat.old (cleaned M.sight (graces_on clean.old.along freeing (scanned_to is_over))) }
        ensures on { Onward self.now M.sight M.call seat.new (cleaned M.sight (graces_on clean.old.along freeing (scanned_to is_over))) (cleaned M.sight (went_on clean.new result)) }
        ensures pends { Pends clean.new result }
    {
        if !is_over {
            let stage = GraceStage::LoadSection;
            clean.stage = CleanStage::Grace { freeing, stage };
            let seat = clean.along.grace.next;
            return CleanWent::Ends(PollEnd::PendingSeat { seat });
        }
        self.free_all::<M, W>(seat, &mut clean.along.cleaning);
        let most = self.origin.table.shape.slots / BATCH as u32;
        match freeing {
            Freeing::Last => CleanWent::Goes(CleanNext::End),
            Freeing::Again => {
                if clean.along.full_passes > most {
                    waits_for_bucket(clean)
                } else {
                    CleanWent::Goes(CleanNext::Bucket)
                }
            }
        }
    }

    /// Begins a grace, if one may begin, and frees the slots that wait once it is over.
    fn begin_freeing<M: Began>(
        &self,
        seat: &mut Raw,
        clean: &mut Clean,
        freeing: Freeing,
    ) -> CleanWent
        requires at { IsAt self.now M.sight M.call seat.old (cleaned M.sight (raises clean.old.along freeing)) }
        ensures at { IsAt self.now M.sight M.call seat.new (cleaned M.sight (went_on clean.new result)) }
        ensures less { IsOn result → HasLess self.now.origin.table.shape (cleaned M.sight (raises clean.old.along freeing)) (cleaned M.sight (went_on clean.new result)) }
        ensures pends { Pends clean.new result }
    {
        if clean.along.grace.raised >= LAST_GRACE {
            let stage = GraceStage::RaiseCounter;
            clean.stage = CleanStage::Grace { freeing, stage };
            return CleanWent::Ends(PollEnd::PendingSeat { seat: 0 });
        }
        self.raise::<M>(seat, &mut clean.along, freeing);
        let is_over = self.scan_sections::<M, Brand>(seat, &mut clean.along, freeing);
        self.free_slots::<M, Brand>(seat, clean, freeing, is_over)
    }

    /// Gives the resize lock back: the clean is done.
    fn end_clean<M: Began>(&self, seat: &mut Raw, clean: &mut Clean) -> PollEnd
        requires at { IsAt self.now M.sight M.call seat.old (cleaned M.sight (goes clean.old.along stage.GiveResizeLock)) }
        ensures at { IsAt self.now M.sight M.call seat.new (cleaned M.sight (ended clean.new result)) }
        ensures done { IsDone result }
    {
        let word = owner_word(None);
        self.store(seat, Step::GiveResizeLock, RESIZE_LOCK, word);
        clean.stage = CleanStage::GiveResizeLock;
        PollEnd::Done(clean.along.worked())
    }

    /// Goes on with a clean until its poll ends.
    fn clean_on<M: Began>(&self, seat: &mut Raw, clean: &mut Clean, next: CleanNext) -> PollEnd
        requires at { IsAt self.now M.sight M.call seat.old (cleaned M.sight (comes_to clean.old.along next)) }
        requires polls { IsPolling self.now.origin.table.shape (cleaned M.sight (comes_to clean.old.along next)) }
        ensures at { IsAt self.now M.sight M.call seat.new (cleaned M.sight (ended clean.new result)) }
        ensures pends { PendsAt clean.new result }
    {
        let mut next = next;
        loop {
            let went = match next {
                CleanNext::Bucket => {
                    let head = self.look_at_bucket::<M>(seat, &clean.along);
                    self.clean_bucket::<M>(seat, clean, head)
                }
                CleanNext::Free(freeing) => self.begin_freeing::<M>(seat, clean, freeing),
                CleanNext::End => return self.end_clean::<M>(seat, clean),
            };
            match went {
                CleanWent::Goes(then) => next = then,
                CleanWent::Ends(end) => return end,
            }
        }
    }

    /// Polls a clean, whose first step has found this word, until the poll ends.
    pub(crate) fn poll_clean<M: Began>(
        &self,
        seat: &mut Raw,
        clean: &mut Clean,
        word: u64,
    ) -> PollEnd
        requires sound { IsSoundClean self.now.origin.table.shape clean.old.along clean.old.stage }
        requires pends { CleanPends clean.old.along clean.old.stage }
        requires goes { ¬ (IsCleanHeld clean.old.stage) }
        requires fits { CanBeFound self.now.origin.table.shape (clean_row self.now.origin.table.shape clean.old.along clean.old.stage).step word }
        requires at { IsAt self.now M.sight M.call seat.old (cleaned M.sight ((clean_row self.now.origin.table.shape (anew clean.old.along) clean.old.stage).next word)) }
        requires polls { IsPolling self.now.origin.table.shape (cleaned M.sight ((clean_row self.now.origin.table.shape (anew clean.old.along) clean.old.stage).next word)) }
        ensures at { IsAt self.now M.sight M.call seat.new (cleaned M.sight (ended clean.new result)) }
        ensures pends { PendsAt clean.new result }
    {
        clean.along.full_passes = 0;
        match clean.stage {
            CleanStage::LoadLevel => {
                clean.along.cleaning.row = word as u8;
                self.clean_on::<M>(seat, clean, CleanNext::Bucket)
            }
            CleanStage::Lock(LockStage::LoadHead) => {
                let went = self.clean_bucket::<M>(seat, clean, word);
                self.clean_after::<M>(seat, clean, went)
            }
            CleanStage::Grace {
                freeing,
                stage: GraceStage::LoadSection,
            } => {
                let went = self.free_after::<M>(seat, clean, freeing, word);
                self.clean_after::<M>(seat, clean, went)
            }
            _ => unreachable!(),
        }
    }

    /// Goes on with a clean, unless its poll has ended.
    #[inline(always)]
    fn clean_after<M: Began>(&self, seat: &mut Raw, clean: &mut Clean, went: CleanWent) -> PollEnd
        requires at { IsAt self.now M.sight M.call seat.old (cleaned M.sight (went_on clean.old went)) }
        requires polls { IsPolling self.now.origin.table.shape (cleaned M.sight (went_on clean.old went)) }
        requires pends { Pends clean.old went }
        ensures at { IsAt self.now M.sight M.call seat.new (cleaned M.sight (ended clean.new result)) }
        ensures pends { PendsAt clean.new result }
    {
        match went {
            CleanWent::Goes(next) => self.clean_on::<M>(seat, clean, next),
            CleanWent::Ends(end) => end,
        }
    }

    /// Goes on with a grace, of which the section word of the next number was loaded.
    fn free_after<M: Began>(
        &self,
        seat: &mut Raw,
        clean: &mut Clean,
        freeing: Freeing,
        word: u64,
    ) -> CleanWent
        requires inside { clean.old.along.grace.next < self.now.origin.table.shape.seats }
        requires at { IsAt self.now M.sight M.call seat.old (cleaned M.sight ((clean_row self.now.origin.table.shape clean.old.along (stage.Grace freeing LoadSection)).next word)) }
        ensures on { Onward self.now M.sight M.call seat.new (cleaned M.sight ((clean_row self.now.origin.table.shape clean.old.along (stage.Grace freeing LoadSection)).next word)) (cleaned M.sight (went_on clean.new result)) }
        ensures pends { Pends clean.new result }
    {
        let seats = self.origin.table.shape.seats;
        let (grace, came) = scanned(clean.along.grace, seats, word);
        clean.along.grace = grace;
        match came {
            Gracing::Goes => {
                let is_over = self.scan_sections::<M, Brand>(seat, &mut clean.along, freeing);
                self.free_slots::<M, Brand>(seat, clean, freeing, is_over)
            }
            Gracing::Waits => self.free_slots::<M, Brand>(seat, clean, freeing, false),
            Gracing::Over => self.free_slots::<M, Brand>(seat, clean, freeing, true),
        }
    }
}
