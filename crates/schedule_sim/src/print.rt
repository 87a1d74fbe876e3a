//! The lines that a script prints: of the events of its table, and of the answers of its calls.
ghost use Rattle.std.specs.Prelude.{◌≡◌, ◌≤◌, ◌++◌, ℕ, length, drop, List, [], ◌∷◌, map, IfOk, codes, decimal, string_bytes};
ghost use Rattle.std.specs.List.{concat};
ghost use Rattle.schedule_sim.specs.PrintedLines.{handle_text, log_line, event_line, said_by, answer_line, chain_line, spaced, texts_in, lines_of, Tells};

use atomic_step::{Answer, Worked};
use intern_log::{Event, Handle, What};
use std::alloc::{AllocError, Global};

/// Prints the lines of some events.
fn push_events(alloc: Global, out: &mut Vec<u8>, events: &[Event]) -> Result<(), AllocError>
    ensures text { IfOk result (λ _. out.new.items ≡ out.old.items ++ lines_of (map Tells events.now)) }
{
    for event in events {
        push_event(alloc, out, event)?;
    }
    Ok(())
}

/// Prints the lines of the events from a place of the log on.
pub(crate) fn push_new(
    alloc: Global,
    out: &mut Vec<u8>,
    log: &[Event],
    before: usize,
) -> Result<(), AllocError>
    requires within { before ≤ length log.now }
    ensures text { IfOk result (λ _. out.new.items ≡ out.old.items ++ lines_of (map Tells (drop before log.now))) }
{
    push_events(alloc, out, &log[before..])
}

/// Prints the line of an event, if it has one.
#[tactic(auto, unfolding(crate::specs::PrintedLines::event_line))]
fn push_event(alloc: Global, out: &mut Vec<u8>, event: &Event) -> Result<(), AllocError>
    ensures text { IfOk result (λ _. out.new.items ≡ out.old.items ++ event_line event.now.seat event.now.what) }
{
    let seat = event.seat;
    match &event.what {
        What::Create(text, handle) => push_text(alloc, out, seat, "create", text.bytes(), *handle),
        What::Take(text, handle) => push_text(alloc, out, seat, "take", text.bytes(), *handle),
        What::Found(text, handle) => push_text(alloc, out, seat, "found", text.bytes(), *handle),
        What::Drop(handle) => push_handle(alloc, out, seat, "drop", *handle),
        What::Perm(handle) => push_handle(alloc, out, seat, "perm", *handle),
        What::Kill(handle) => push_handle(alloc, out, seat, "kill", *handle),
        What::Unlink(slot) => push_number(alloc, out, seat, "unlink", *slot),
        What::Free(slot) => push_number(alloc, out, seat, "free", *slot),
        What::Level(level) => push_number(alloc, out, seat, "level", u32::from(*level)),
        What::Rehash { seed } => push_number(alloc, out, seat, "rehash", *seed),
        What::Claim(_)
        | What::Open(_)
        | What::Close
        | What::Grace
        | What::Lock(_, _)
        | What::Unlock(_, _)
        | What::ResizeTaken
        | What::ResizeGiven => Ok(()),
    }
}

/// Prints the line of an event with a text and a handle.
fn push_text(
    alloc: Global,
    out: &mut Vec<u8>,
    seat: u32,
    word: &str,
    text: &[u8],
    handle: Handle,
) -> Result<(), AllocError>
    ensures text { IfOk result (λ _. out.new.items ≡ out.old.items ++ log_line seat (word.now ∷ codes " " ∷ text.now ∷ codes " " ∷ handle_text handle)) }
{
    let front = log_front(alloc, seat, word)?;
    let back = handle_back(alloc, handle)?;
    push_three(out, front.as_bytes(), text, back.as_bytes())?;
    Ok(())
}

/// What comes before the text in the line of an event.
fn log_front(alloc: Global, seat: u32, word: &str) -> Result<String, AllocError>
    ensures text { IfOk result (λ front. string_bytes front ≡ concat (codes "log " ∷ decimal seat ∷ codes " " ∷ word.now ∷ codes " " ∷ [])) }
{
    format!(in alloc; "log {seat} {word} ")
}

/// What comes behind the text in the line of an event.
fn handle_back(alloc: Global, handle: Handle) -> Result<String, AllocError>
    ensures text { IfOk result (λ back. string_bytes back ≡ concat (codes " " ∷ decimal handle.slot ∷ codes "." ∷ decimal handle.generation ∷ codes "\n" ∷ [])) }
{
    format!(in alloc; " {}.{}\n", handle.slot, handle.generation)
}

/// What comes before the texts in the line of a chain.
fn chain_front(alloc: Global, row: u64, bucket: u64) -> Result<String, AllocError>
    ensures text { IfOk result (λ front. string_bytes front ≡ concat (codes "chain " ∷ decimal row ∷ codes " " ∷ decimal bucket ∷ codes ":" ∷ [])) }
{
    format!(in alloc; "chain {row} {bucket}:")
}

/// Prints three pieces one after another.
fn push_three(
    out: &mut Vec<u8>,
    first: &[u8],
    second: &[u8],
    third: &[u8],
) -> Result<(), AllocError>
    ensures text { IfOk result (λ _. out.new.items ≡ out.old.items ++ (first.now ++ (second.now ++ third.now))) }
{
    out.extend_from_slice(first)?;
    out.extend_from_slice(second)?;
    out.extend_from_slice(third)?;
    Ok(())
}

/// Prints the line of an event with a handle.
fn push_handle(
    alloc: Global,
    out: &mut Vec<u8>,
    seat: u32,
    word: &str,
    handle: Handle,
) -> Result<(), AllocError>
    ensures text { IfOk result (λ _. out.new.items ≡ out.old.items ++ log_line seat (word.now ∷ codes " " ∷ handle_text handle)) }
{
    let line = format!(in alloc; "log {seat} {word} {}.{}\n", handle.slot, handle.generation)?;
    out.extend_from_slice(line.as_bytes())
}

/// Prints the line of an event with a number.
fn push_number(
    alloc: Global,
    out: &mut Vec<u8>,
    seat: u32,
    word: &str,
    number: u32,
) -> Result<(), AllocError>
    ensures text { IfOk result (λ _. out.new.items ≡ out.old.items ++ log_line seat (word.now ∷ codes " " ∷ decimal number ∷ [])) }
{
    let line = format!(in alloc; "log {seat} {word} {number}\n")?;
    out.extend_from_slice(line.as_bytes())
}

/// Prints the line of an answer.
#[tactic(auto, unfolding(crate::specs::PrintedLines::answer_line))]
pub(crate) fn push_answer(
    alloc: Global,
    out: &mut Vec<u8>,
    seat: u32,
    answer: Answer,
) -> Result<(), AllocError>
    ensures text { IfOk result (λ _. out.new.items ≡ out.old.items ++ answer_line seat answer) }
{
    let said = said_of(alloc, answer)?;
    let line = format!(in alloc; "{seat} {said}\n")?;
    out.extend_from_slice(line.as_bytes())
}

/// The words of an answer. No call of a script answers with the number of a new seat, that all are drawn, with a
/// length, as ready or as swept.
#[tactic(auto, unfolding(crate::specs::PrintedLines::said_by))]
fn said_of(alloc: Global, answer: Answer) -> Result<String, AllocError>
    ensures text { IfOk result (λ said. string_bytes said ≡ said_by answer) }
{
    match answer {
        Answer::Created(handle) => with_handle(alloc, "created", handle),
        Answer::Taken(handle) => with_handle(alloc, "taken", handle),
        Answer::Found(handle) => with_handle(alloc, "found", handle),
        Answer::Hit(handle) => with_handle(alloc, "hit", handle),
        Answer::Dropped { left } => format!(in alloc; "dropped {left}"),
        Answer::Spent { counter } => format!(in alloc; "spent {counter}"),
        Answer::AtMaximum { level } => format!(in alloc; "at maximum {level}"),
        Answer::AtMinimum { level } => format!(in alloc; "at minimum {level}"),
        Answer::PendingSeat { seat } => format!(in alloc; "pending seat {seat}"),
        Answer::PendingBucket { row, bucket } => pending(alloc, row, bucket),
        Answer::Done(worked) => done(alloc, worked),
        Answer::Miss => format!(in alloc; "miss"),
        Answer::Again => format!(in alloc; "again"),
        Answer::Locked => format!(in alloc; "locked"),
        Answer::NoSlot => format!(in alloc; "no slot"),
        Answer::TooLong => format!(in alloc; "too long"),
        Answer::Stale => format!(in alloc; "stale"),
        Answer::Permanent => format!(in alloc; "permanent"),
        Answer::MadePermanent => format!(in alloc; "made permanent"),
        Answer::Killed => format!(in alloc; "killed"),
        Answer::Begun => format!(in alloc; "begun"),
        Answer::Busy => format!(in alloc; "busy"),
        Answer::Split { .. }
        | Answer::SeatsSpent
        | Answer::Text { .. }
        | Answer::Ready
        | Answer::Swept { .. } => Ok(String::new(alloc)),
    }
}

/// The words of an answer with a handle.
fn with_handle(alloc: Global, word: &str, handle: Handle) -> Result<String, AllocError>
    ensures text { IfOk result (λ said. string_bytes said ≡ concat (word.now ∷ codes " " ∷ handle_text handle)) }
{
    format!(in alloc; "{word} {}.{}", handle.slot, handle.generation)
}

/// The words of a work that is done.
#[tactic(auto, unfolding(crate::specs::PrintedLines::said_by))]
fn done(alloc: Global, worked: Worked) -> Result<String, AllocError>
    ensures text { IfOk result (λ said. string_bytes said ≡ said_by (Answer.Done worked)) }
{
    format!(in alloc;
        "done unlinked {} graces {} level {}",
        worked.unlinked, worked.graces, worked.level
    )
}

/// The words of a work that waits for a bucket.
#[tactic(auto, unfolding(crate::specs::PrintedLines::said_by))]
fn pending(alloc: Global, row: u8, bucket: u32) -> Result<String, AllocError>
    ensures text { IfOk result (λ said. string_bytes said ≡ said_by (Answer.PendingBucket row bucket)) }
{
    format!(in alloc; "pending bucket {row} {bucket}")
}

/// Prints the line of a chain with these texts.
pub(crate) fn push_chain(
    alloc: Global,
    out: &mut Vec<u8>,
    row: u64,
    bucket: u64,
    texts: &[Vec<u8>],
) -> Result<(), AllocError>
    ensures text { IfOk result (λ _. out.new.items ≡ out.old.items ++ chain_line row bucket (texts_in texts.now)) }
{
    let front = chain_front(alloc, row, bucket)?;
    let middle = spaced_texts(alloc, texts)?;
    push_three(out, front.as_bytes(), middle.as_slice(), b"\n")?;
    Ok(())
}

/// The texts, each after a blank.
fn spaced_texts(alloc: Global, texts: &[Vec<u8>]) -> Result<Vec<u8>, AllocError>
    ensures text { IfOk result (λ line. line.items ≡ spaced (texts_in texts.now)) }
{
    let mut line = Vec::new(alloc);
    for text in texts {
        push_spaced(&mut line, text.as_slice())?;
    }
    Ok(line)
}

/// Prints a text after a blank.
fn push_spaced(out: &mut Vec<u8>, text: &[u8]) -> Result<(), AllocError>
    ensures text { IfOk result (λ _. out.new.items ≡ out.old.items ++ codes " " ++ text.now) }
{
    out.extend_from_slice(b" ")?;
    out.extend_from_slice(text)
}
