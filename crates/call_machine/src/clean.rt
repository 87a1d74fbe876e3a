//! Cleaning a table: bucket after bucket is locked, its dead nodes are unlinked, and after a grace their
//! slots are freed.
ghost use Rattle.std.specs.Prelude.{◌≡◌, ℕ};
ghost use Rattle.table_shape.specs.declared.shape.Shape.{Shape};
ghost use Rattle.table_shape.specs.Shape.{IsSound};
ghost use Rattle.table_shape.specs.Place.{IsInside};
ghost use Rattle.atomic_step.specs.Step.{access_of};
ghost use Rattle.atomic_step.specs.SoundStep.{CanBeFound};
ghost use Rattle.call_machine.specs.declared.clean.CleanStage.TheVariants as CleanStage;
ghost use Rattle.call_machine.specs.Clean as cleans;
ghost use Rattle.call_machine.specs.SoundClean.{IsSoundClean};
ghost use Rattle.call_machine.specs.SoundPass.{IsSoundCleaning};

use crate::grace::{Grace, GraceStage, Gracing, counts_grace, held_back};
use crate::lock::{LockStage, Locking};
use crate::pass::{BATCH, Cleaning, FreeStage, PassStage, passes_on};
use atomic_step::{Answer, Shape, Step, Worked};

/// What a clean does once the slots that wait are freed.
#[derive(Clone, Copy, Debug, PartialEq, Eq)]
pub enum Freeing {
    /// It cleans the bucket again, which had more dead nodes than can wait at once.
    Again,
    /// It ends: the bucket was the last one.
    Last,
}

/// Where a clean stands.
#[derive(Clone, Copy, Debug, PartialEq, Eq)]
pub enum CleanStage {
    LoadLevel,
    Lock(LockStage),
    Pass(PassStage),
    UnlockHead,
    Grace { freeing: Freeing, stage: GraceStage },
    Free { freeing: Freeing, stage: FreeStage },
    GiveResizeLock,
}

/// What goes along with a clean.
#[derive(Debug, Drop)]
pub struct CleanAlong {
    pub cleaning: Cleaning,
    /// How many passes of this poll over this bucket unlinked 256 slots; 2^32 - 1 stays.
    pub full_passes: u32,
    /// The last grace.
    pub grace: Grace,
    /// How many graces were begun; 2^64 - 1 stays.
    pub graces: u64,
}

/// A clean of a table.
#[derive(Debug, Drop)]
pub struct Clean {
    pub along: CleanAlong,
    pub stage: CleanStage,
}

/// At the next node of the locked bucket, or at its end.
fn cleans_on(next: Option<PassStage>) -> CleanStage
    ensures value { result ≡ cleans.cleans_on next }
{
    match next {
        Some(stage) => CleanStage::Pass(stage),
        None => CleanStage::UnlockHead,
    }
}

impl CleanAlong {
    /// The bucket is waited for.
    fn waits_at(&self) -> (CleanStage, Option<Answer>)
        ensures value { (self.now, result.0, result.1) ≡ cleans.waits_at self.now }
    {
        let Cleaning { row, bucket, .. } = self.cleaning;
        (
            CleanStage::Lock(LockStage::LoadHead),
            Some(Answer::PendingBucket { row, bucket }),
        )
    }

    /// A grace comes next, if one may begin.
    fn raises(&self, freeing: Freeing) -> (CleanStage, Option<Answer>)
        ensures value { (self.now, result.0, result.1) ≡ cleans.raises self.now freeing }
    {
        let stage = GraceStage::RaiseCounter;
        (
            CleanStage::Grace { freeing, stage },
            held_back(self.grace.raised),
        )
    }

    /// What came of a step that locks the bucket.
    fn locks_on(&mut self, locking: Locking) -> (CleanStage, Option<Answer>)
        ensures value { (self.new, result.0, result.1) ≡ cleans.locks_on self.old locking }
    {
        match locking {
            Locking::Goes(stage) => (CleanStage::Lock(stage), None),
            Locking::Waits => self.waits_at(),
            Locking::Locked { first } => {
                self.cleaning.begin_pass(first);
                (cleans_on(passes_on(first)), None)
            }
        }
    }

    /// A pass that unlinked 256 slots by itself counts.
    #[inline]
    pub fn count_pass(&mut self)
        ensures value { self.new ≡ cleans.counts_pass self.old }
    {
        if self.cleaning.pass_waiting == BATCH as u32 {
            self.full_passes = self.full_passes.saturating_add(1);
        }
    }

    /// The bucket is unlocked: where 256 slots wait they are freed, and it is cleaned again; else the next
    /// one comes, or the end.
    fn next_bucket(&mut self) -> (CleanStage, Option<Answer>)
        requires sound { (shape : Shape) × IsSound shape × IsSoundCleaning shape self.old.cleaning }
        ensures value { (self.new, result.0, result.1) ≡ cleans.next_bucket self.old }
    {
        if self.cleaning.waiting.len() == BATCH {
            self.count_pass();
            return self.raises(Freeing::Again);
        }
        let next = self.cleaning.bucket + 1;
        if next < 1 << self.cleaning.row {
            self.cleaning.bucket = next;
            self.full_passes = 0;
            return (CleanStage::Lock(LockStage::LoadHead), None);
        }
        if self.cleaning.waiting.is_empty() {
            return (CleanStage::GiveResizeLock, None);
        }
        self.raises(Freeing::Last)
    }

    /// What came of a step of a grace.
    fn graces_on(&self, freeing: Freeing, gracing: Gracing) -> (CleanStage, Option<Answer>)
        ensures value { (self.now, result.0, result.1) ≡ cleans.graces_on self.now freeing gracing }
    {
        let stage = GraceStage::LoadSection;
        match gracing {
            Gracing::Goes => (CleanStage::Grace { freeing, stage }, None),
            Gracing::Waits => {
                let seat = self.grace.next;
                (
                    CleanStage::Grace { freeing, stage },
                    Some(Answer::PendingSeat { seat }),
                )
            }
            Gracing::Over => {
                let stage = FreeStage::PutNextGeneration { at: 0 };
                (CleanStage::Free { freeing, stage }, None)
            }
        }
    }

    /// What came of a step of freeing: once all are free the bucket is cleaned again, unless this poll has
    /// made all the full passes over it that it may.
    fn frees_on(
        &self,
        slots: u32,
        freeing: Freeing,
        next: Option<FreeStage>,
    ) -> (CleanStage, Option<Answer>)
        ensures value { (shape : Shape) → shape.slots ≡ slots → (self.now, result.0, result.1) ≡ cleans.frees_on shape self.now freeing next }
    {
        match (freeing, next) {
            (_, Some(stage)) => (CleanStage::Free { freeing, stage }, None),
            (Freeing::Again, None) if self.full_passes > slots / BATCH as u32 => self.waits_at(),
            (Freeing::Again, None) => (CleanStage::Lock(LockStage::LoadHead), None),
            (Freeing::Last, None) => (CleanStage::GiveResizeLock, None),
        }
    }

    /// What the clean did so far.
    pub fn worked(&self) -> Worked
        ensures value { result ≡ cleans.worked self.now }
    {
        Worked {
            unlinked: self.cleaning.unlinked,
            graces: self.graces,
            level: self.cleaning.row,
        }
    }

    /// A grace has gone a step.
    fn grace(
        &mut self,
        seats: u32,
        freeing: Freeing,
        stage: GraceStage,
        word: u64,
    ) -> (CleanStage, Option<Answer>)
        requires fits { (shape : Shape) × (shape.seats ≡ seats) × IsInside shape (access_of (cleans.clean_row shape self.old (CleanStage.Grace freeing stage)).step).place × CanBeFound shape (cleans.clean_row shape self.old (CleanStage.Grace freeing stage)).step word }
        ensures value { (shape : Shape) → shape.seats ≡ seats → (self.new, result.0, result.1) ≡ (cleans.clean_row shape self.old (CleanStage.Grace freeing stage)).next word }
    {
        self.graces = counts_grace(stage, self.graces);
        let (grace, gracing) = self.grace.next(seats, stage, word);
        self.grace = grace;
        self.graces_on(freeing, gracing)
    }

    /// What comes of the word that the step of a stage found.
    fn next(&mut self, shape: &Shape, stage: CleanStage, word: u64) -> (CleanStage, Option<Answer>)
        requires shape { IsSound shape.now }
        requires sound { IsSoundClean shape.now self.old stage }
        requires fits { CanBeFound shape.now (cleans.clean_row shape.now self.old stage).step word }
        ensures value { (self.new, result.0, result.1) ≡ (cleans.clean_row shape.now self.old stage).next word }
    {
        match stage {
            CleanStage::LoadLevel => {
                self.cleaning.row = word as u8;
                (CleanStage::Lock(LockStage::LoadHead), None)
            }
            CleanStage::Lock(stage) => {
                let Cleaning { row, bucket, .. } = self.cleaning;
                self.locks_on(stage.next(row, bucket, word))
            }
            CleanStage::Pass(stage) => (cleans_on(self.cleaning.pass(stage, word)), None),
            CleanStage::UnlockHead => self.next_bucket(),
            CleanStage::Grace { freeing, stage } => self.grace(shape.seats, freeing, stage, word),
            CleanStage::Free { freeing, stage } => {
                let next = self.cleaning.free(stage);
                self.frees_on(shape.slots, freeing, next)
            }
            CleanStage::GiveResizeLock => (stage, Some(Answer::Done(self.worked()))),
        }
    }
}

impl Clean {
    /// A clean that begins. It loads the level first.
    pub fn begun(level: u8) -> Clean
        ensures along { result.along ≡ cleans.begun_clean level }
        ensures stage { result.stage ≡ CleanStage.LoadLevel }
    {
        Clean {
            along: CleanAlong {
                cleaning: Cleaning::none(level, 0),
                full_passes: 0,
                grace: Grace::NONE,
                graces: 0,
            },
            stage: CleanStage::LoadLevel,
        }
    }

    /// The next step.
    pub(crate) fn step(&self) -> Step
        ensures value { (shape : Shape) → result ≡ (cleans.clean_row shape self.now.along self.now.stage).step }
    {
        let cleaning = &self.along.cleaning;
        let Cleaning {
            row,
            bucket,
            first,
            ..
        } = *cleaning;
        match self.stage {
            CleanStage::LoadLevel => Step::LoadLevel,
            CleanStage::Lock(stage) => stage.step(row, bucket),
            CleanStage::Pass(stage) => cleaning.pass_step(stage),
            CleanStage::UnlockHead => Step::UnlockHead { row, bucket, first },
            CleanStage::Grace { stage, .. } => self.along.grace.step(stage),
            CleanStage::Free { stage, .. } => cleaning.free_step(stage),
            CleanStage::GiveResizeLock => Step::GiveResizeLock,
        }
    }

    /// Takes the word that the step found; for a store any word. What the poll answers then, if anything.
    pub(crate) fn got(&mut self, shape: &Shape, word: u64) -> Option<Answer>
        requires shape { IsSound shape.now }
        requires sound { IsSoundClean shape.now self.old.along self.old.stage }
        requires fits { CanBeFound shape.now (cleans.clean_row shape.now self.old.along self.old.stage).step word }
        ensures value { (self.new.along, self.new.stage, result) ≡ (cleans.clean_row shape.now self.old.along self.old.stage).next word }
    {
        let (stage, answer) = self.along.next(shape, self.stage, word);
        self.stage = stage;
        answer
    }

    /// A poll begins, which counts its full passes anew. What it answers without a step, if anything.
    pub(crate) fn begin_poll(&mut self) -> Option<Answer>
        ensures value { (self.new.along, self.new.stage, result) ≡ cleans.begins_poll self.old.along self.old.stage }
    {
        self.along.full_passes = 0;
        match self.stage {
            CleanStage::Grace {
                stage: GraceStage::RaiseCounter,
                ..
            } => held_back(self.along.grace.raised),
            _ => None,
        }
    }
}
