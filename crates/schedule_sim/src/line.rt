//! The lines of a script behind its opening.
ghost use Rattle.std.specs.Prelude.{◌≡◌, ◌≢◌, ◌≤◌, ◌↔◌, ℕ, [], ◌∷◌, List, None, IfSome, IfOk, Err, IsTrue, codes};
ghost use Rattle.atomic_step.specs.declared.access.StepKind.{StepKind};
ghost use Rattle.intern_log.specs.declared.event.Kind.{Kind};
ghost use Rattle.schedule_sim.specs.declared.script.Asked.{Asked};
ghost use Rattle.schedule_sim.specs.declared.script.Line.{Line};
ghost use Rattle.schedule_sim.specs.Line.{kind_number, kind_word, handle_word, IsNumber, IsText, IsNoHandleCall, AreAsked, AreLine, IsLine};

use crate::cut::{Parts, is_word};
use crate::number::{last_number, next_number, number_of};
use crate::script::{Asked, Line};
use atomic_step::StepKind;
use intern_log::Kind;
use std::alloc::{AllocError, Global};

/// Why bytes give no line.
#[derive(Clone, Copy, Debug, PartialEq, Eq)]
pub(crate) enum LineFault {
    /// They are not of the form.
    NotOfForm,
    /// There was no memory.
    OutOfMemory,
}

impl From<AllocError> for LineFault {
    ghost use Rattle.schedule_sim.specs.declared.line.LineFault.TheVariants.{OutOfMemory};

    ghost from_gives = { λ _ fault. fault ≡ OutOfMemory };

    fn from(_: AllocError) -> Self {
        LineFault::OutOfMemory
    }
}

/// The most steps that one line asks for.
const MOST_STEPS: u64 = 1 << 20;

/// The kind of step of the number.
fn kind_numbered(number: u64) -> Option<StepKind>
    ensures kind { IfSome result (λ kind. number ≡ kind_number kind) }
    ensures none { result ≡ None → (kind : StepKind) → number ≢ kind_number kind }
{
    match number {
        1 => Some(StepKind::K1),
        2 => Some(StepKind::K2),
        3 => Some(StepKind::K3),
        4 => Some(StepKind::K4),
        5 => Some(StepKind::K5),
        6 => Some(StepKind::K6),
        7 => Some(StepKind::K7),
        8 => Some(StepKind::K8),
        9 => Some(StepKind::K9),
        10 => Some(StepKind::K10),
        11 => Some(StepKind::K11),
        12 => Some(StepKind::K12),
        13 => Some(StepKind::K13),
        14 => Some(StepKind::K14),
        15 => Some(StepKind::K15),
        16 => Some(StepKind::K16),
        17 => Some(StepKind::K17),
        18 => Some(StepKind::K18),
        19 => Some(StepKind::K19),
        20 => Some(StepKind::K20),
        21 => Some(StepKind::K21),
        22 => Some(StepKind::K22),
        23 => Some(StepKind::K23),
        24 => Some(StepKind::K24),
        25 => Some(StepKind::K25),
        26 => Some(StepKind::K26),
        _ => None,
    }
}

/// The kind of step of the name: `K` and its number.
fn kind_named(name: &[u8]) -> Option<StepKind>
    ensures kind { IfSome result (λ kind. name.now ≡ kind_word kind) }
    ensures none { result ≡ None → (kind : StepKind) → name.now ≢ kind_word kind }
{
    match name {
        [b'K', digits @ ..] => kind_numbered(number_of(digits)?),
        _ => None,
    }
}

/// Whether the byte may stand in a text.
fn is_text_byte(byte: u8) -> bool
    ensures { IsTrue result ↔ ((33 ≤ byte) × (byte ≤ 126)) }
{
    33 <= byte && byte <= 126
}

/// Whether the bytes are a text: one or more from 33 to 126.
fn is_text(bytes: &[u8]) -> bool
    ensures { IsTrue result ↔ IsText bytes.now }
{
    for byte in bytes {
        if !is_text_byte(*byte) {
            return false;
        }
    }
    !bytes.is_empty()
}

/// A copy of the text that is the one part left.
fn last_text(alloc: Global, parts: &mut Parts<'_>) -> Result<Vec<u8>, LineFault>
    ensures text { IfOk result (λ text. (parts.old ≡ text.items ∷ []) × IsText text.items) }
    ensures none { result ≡ Err LineFault.NotOfForm → (text : List ℕ) → IsText text → parts.old ≢ text ∷ [] }
{
    let Some(text) = parts.next() else {
        return Err(LineFault::NotOfForm);
    };
    if !parts.is_done() || !is_text(text) {
        return Err(LineFault::NotOfForm);
    }
    Ok(Vec::from_slice(alloc, text)?)
}

/// The handle that the bytes write: a slot, a point and a generation.
fn handle_of(bytes: &[u8]) -> Option<(u64, u64)>
    ensures handle { IfSome result (λ pair. bytes.now ≡ handle_word pair.0 pair.1) }
    ensures none { result ≡ None → (slot generation : ℕ) → IsNumber slot → IsNumber generation → bytes.now ≢ handle_word slot generation }
{
    let mut pair = Parts::of(bytes, b'.');
    let slot = next_number(&mut pair)?;
    let generation = last_number(&mut pair)?;
    Some((slot, generation))
}

/// The handle that is the one part left.
fn last_handle(parts: &mut Parts<'_>) -> Option<(u64, u64)>
    ensures handle { IfSome result (λ pair. parts.old ≡ handle_word pair.0 pair.1 ∷ []) }
    ensures none { result ≡ None → (slot generation : ℕ) → IsNumber slot → IsNumber generation → parts.old ≢ handle_word slot generation ∷ [] }
{
    let handle = handle_of(parts.next()?)?;
    if parts.is_done() { Some(handle) } else { None }
}

/// The call of the name, which stands before a handle, in a table of the kind.
fn asked_of_handle(kind: Kind, name: &[u8], slot: u64, generation: u64) -> Option<Asked>
    ensures asked { IfSome result (λ asked. AreAsked kind (name.now ∷ handle_word slot generation ∷ []) asked) }
    ensures none { result ≡ None → IsNoHandleCall kind name.now }
{
    match kind {
        Kind::Counted if is_word(name, b"drop") => Some(Asked::Drop { slot, generation }),
        Kind::Counted if is_word(name, b"permanent") => Some(Asked::Permanent { slot, generation }),
        Kind::Weak if is_word(name, b"kill") => Some(Asked::Kill { slot, generation }),
        _ => None,
    }
}

/// The call of the name alone.
fn asked_alone(name: &[u8]) -> Option<Asked>
    ensures asked { IfSome result (λ asked. (kind : Kind) → AreAsked kind (name.now ∷ []) asked) }
    ensures none { result ≡ None → (kind : Kind) (asked : Asked) → ¬ (AreAsked kind (name.now ∷ []) asked) }
{
    if is_word(name, b"clean") {
        Some(Asked::Clean)
    } else if is_word(name, b"grow") {
        Some(Asked::Grow)
    } else if is_word(name, b"shrink") {
        Some(Asked::Shrink)
    } else if is_word(name, b"poll") {
        Some(Asked::Poll)
    } else {
        None
    }
}

/// The call of the name and the parts behind it, where it takes no text.
fn asked_without_text(kind: Kind, name: &[u8], parts: &mut Parts<'_>) -> Option<Asked>
    ensures asked { IfSome result (λ asked. AreAsked kind (name.now ∷ parts.old) asked) }
    ensures none { result ≡ None → name.now ≢ codes "intern" → name.now ≢ codes "lookup" → (asked : Asked) → ¬ (AreAsked kind (name.now ∷ parts.old) asked) }
{
    if parts.is_done() {
        return asked_alone(name);
    }
    let (slot, generation) = last_handle(parts)?;
    asked_of_handle(kind, name, slot, generation)
}

/// The call that the parts ask for in a table of the kind.
fn asked_of(alloc: Global, kind: Kind, parts: &mut Parts<'_>) -> Result<Asked, LineFault>
    ensures asked { IfOk result (λ asked. AreAsked kind parts.old asked) }
    ensures none { result ≡ Err LineFault.NotOfForm → (asked : Asked) → ¬ (AreAsked kind parts.old asked) }
{
    let Some(name) = parts.next() else {
        return Err(LineFault::NotOfForm);
    };
    if is_word(name, b"intern") {
        return Ok(Asked::Intern(last_text(alloc, parts)?));
    }
    if is_word(name, b"lookup") {
        return Ok(Asked::Lookup(last_text(alloc, parts)?));
    }
    match asked_without_text(kind, name, parts) {
        Some(asked) => Ok(asked),
        None => Err(LineFault::NotOfForm),
    }
}

/// The line of the parts behind `step`.
#[tactic(auto, using(std::proofs::lemmas::Fmt::decimal_injective))]
fn step_line(parts: &mut Parts<'_>) -> Option<Line>
    ensures line { IfSome result (λ line. (kind : Kind) → AreLine kind (codes "step" ∷ parts.old) line) }
    ensures none { result ≡ None → (kind : Kind) (line : Line) → ¬ (AreLine kind (codes "step" ∷ parts.old) line) }
{
    let seat = next_number(parts)?;
    let steps = last_number(parts)?;
    if 1 <= steps && steps <= MOST_STEPS {
        Some(Line::Step {
            seat,
            steps: steps as u32,
        })
    } else {
        None
    }
}

/// The line of the parts behind `until`.
fn until_line(parts: &mut Parts<'_>) -> Option<Line>
    ensures line { IfSome result (λ line. (kind : Kind) → AreLine kind (codes "until" ∷ parts.old) line) }
    ensures none { result ≡ None → (kind : Kind) (line : Line) → ¬ (AreLine kind (codes "until" ∷ parts.old) line) }
{
    let seat = next_number(parts)?;
    let kind = kind_named(parts.next()?)?;
    if parts.is_done() {
        Some(Line::Until { seat, kind })
    } else {
        None
    }
}

/// The line of the parts behind `run`.
fn run_line(parts: &mut Parts<'_>) -> Option<Line>
    ensures line { IfSome result (λ line. (kind : Kind) → AreLine kind (codes "run" ∷ parts.old) line) }
    ensures none { result ≡ None → (kind : Kind) (line : Line) → ¬ (AreLine kind (codes "run" ∷ parts.old) line) }
{
    let seat = last_number(parts)?;
    Some(Line::Run { seat })
}

/// The line of the parts behind `chain`.
fn chain_line(parts: &mut Parts<'_>) -> Option<Line>
    ensures line { IfSome result (λ line. (kind : Kind) → AreLine kind (codes "chain" ∷ parts.old) line) }
    ensures none { result ≡ None → (kind : Kind) (line : Line) → ¬ (AreLine kind (codes "chain" ∷ parts.old) line) }
{
    let row = next_number(parts)?;
    let bucket = last_number(parts)?;
    Some(Line::Chain { row, bucket })
}

/// The line of the parts behind `rehash`.
fn rehash_line(parts: &Parts<'_>) -> Option<Line>
    ensures line { IfSome result (λ line. (kind : Kind) → AreLine kind (codes "rehash" ∷ parts.now) line) }
    ensures none { result ≡ None → (kind : Kind) (line : Line) → ¬ (AreLine kind (codes "rehash" ∷ parts.now) line) }
{
    if parts.is_done() {
        Some(Line::Rehash)
    } else {
        None
    }
}

/// The line of a first part other than `call`, and of the parts behind it.
fn plain_line(word: &[u8], parts: &mut Parts<'_>) -> Option<Line>
    ensures line { IfSome result (λ line. (kind : Kind) → AreLine kind (word.now ∷ parts.old) line) }
    ensures none { result ≡ None → word.now ≢ codes "call" → (kind : Kind) (line : Line) → ¬ (AreLine kind (word.now ∷ parts.old) line) }
{
    if is_word(word, b"step") {
        step_line(parts)
    } else if is_word(word, b"until") {
        until_line(parts)
    } else if is_word(word, b"run") {
        run_line(parts)
    } else if is_word(word, b"chain") {
        chain_line(parts)
    } else if is_word(word, b"rehash") {
        rehash_line(parts)
    } else {
        None
    }
}

/// The line of the parts behind `call`, in a script of a table of the kind.
fn call_line(alloc: Global, kind: Kind, parts: &mut Parts<'_>) -> Result<Line, LineFault>
    ensures line { IfOk result (λ line. AreLine kind (codes "call" ∷ parts.old) line) }
    ensures none { result ≡ Err LineFault.NotOfForm → (line : Line) → ¬ (AreLine kind (codes "call" ∷ parts.old) line) }
{
    let Some(seat) = next_number(parts) else {
        return Err(LineFault::NotOfForm);
    };
    let asked = asked_of(alloc, kind, parts)?;
    Ok(Line::Call { seat, asked })
}

/// The line that the bytes write in a script of a table of the kind.
pub(crate) fn line_of(alloc: Global, kind: Kind, bytes: &[u8]) -> Result<Line, LineFault>
    ensures line { IfOk result (λ line. IsLine kind bytes.now line) }
    ensures none { result ≡ Err LineFault.NotOfForm → (line : Line) → ¬ (IsLine kind bytes.now line) }
{
    let mut parts = Parts::of(bytes, b' ');
    let Some(word) = parts.next() else {
        return Err(LineFault::NotOfForm);
    };
    if is_word(word, b"call") {
        return call_line(alloc, kind, &mut parts);
    }
    match plain_line(word, &mut parts) {
        Some(line) => Ok(line),
        None => Err(LineFault::NotOfForm),
    }
}
