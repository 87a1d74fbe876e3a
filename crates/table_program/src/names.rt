//! The names of a file: interned in order, the last few of them held.
ghost use Rattle.std.specs.Prelude.{◌≡◌, ℕ, ◌+◌, ◌-◌, ◌<◌, ◌≤◌, ◌^◌, List, [], ◌∷◌, ◌++◌, length, IfOk, OnOk};
ghost use Rattle.name_scan.specs.declared.Token.{Token};
ghost use Rattle.name_scan.specs.FileTexts.{names_among};
ghost use Rattle.name_scan.specs.Places.{IsWithin};
ghost use Rattle.table_program.specs.Limits.{IsShort};
ghost use Rattle.table_program.specs.SymbolRun.{SymbolRun, NameInterned, IsSymbolWindow, CountsFit};
ghost use Rattle.table_program.specs.Symbols.{InternsName, NamesSoFar};

use circular_buffer::HeapCircularBuffer;
use intern_log::{Handle, Kind};
use name_scan::{Token, TokenKind};
use plain_interner::{Plain, PlainInterned};
use std::alloc::{AllocError, Global};
use table_report::SymbolCounts;

/// Interns one name, and counts the answer.
fn intern_name(
    plain: &mut Plain,
    counts: &mut SymbolCounts,
    name: &[u8],
) -> Result<Handle, AllocError>
    requires counted { plain.old.kind ≡ Kind.Counted }
    requires short { length name.now ≤ 65535 }
    requires room { plain.old.created < 2 ^ 32 - 1 }
    requires fits { CountsFit counts.old }
    ensures interned { IfOk result (InternsName plain.old counts.old name.now plain.new counts.new) }
{
    match plain.intern(name)? {
        PlainInterned::Created(handle) => {
            counts.created += 1;
            Ok(handle)
        }
        PlainInterned::Taken(handle) => {
            counts.taken += 1;
            Ok(handle)
        }
        PlainInterned::Found(_) => unreachable!(),
    }
}

/// Puts the handle of a name that was interned just now into the window, and drops the handle that
/// leaves it.
fn hold_handle(
    plain: &mut Plain,
    window: &mut HeapCircularBuffer<Handle>,
    counts: &mut SymbolCounts,
    handle: Handle,
)
    requires counted { plain.old.kind ≡ Kind.Counted }
    requires window { IsSymbolWindow window.old.capacity }
    requires fits { counts.old.dropped < 2 ^ 64 - 1 }
    requires interned { (names : List (List ℕ)) × (name : List ℕ) × NameInterned window.old.capacity names name handle plain.old.texts plain.old.created window.old.items counts.old }
    ensures held { (names : List (List ℕ)) (name : List ℕ) →
        NameInterned window.old.capacity names name handle plain.old.texts plain.old.created window.old.items counts.old →
        SymbolRun window.old.capacity (names ++ name ∷ []) plain.new.texts plain.new.created window.new.items counts.new }
    ensures kind { plain.new.kind ≡ plain.old.kind }
    ensures capacity { window.new.capacity ≡ window.old.capacity }
{
    if let Some(leaving) = window.push_back(handle) {
        plain.release(leaving);
        counts.dropped += 1;
    }
}

/// Interns one name, and holds its handle in place of the one that leaves the window.
fn hold_name(
    plain: &mut Plain,
    window: &mut HeapCircularBuffer<Handle>,
    counts: &mut SymbolCounts,
    name: &[u8],
) -> Result<(), AllocError>
    requires counted { plain.old.kind ≡ Kind.Counted }
    requires short { length name.now ≤ 65535 }
    requires room { plain.old.created < 2 ^ 32 - 1 }
    requires fits { CountsFit counts.old }
    requires window { IsSymbolWindow window.old.capacity }
    requires run { (names : List (List ℕ)) × SymbolRun window.old.capacity names plain.old.texts plain.old.created window.old.items counts.old }
    ensures held { (names : List (List ℕ)) →
        SymbolRun window.old.capacity names plain.old.texts plain.old.created window.old.items counts.old →
        OnOk result (SymbolRun window.old.capacity (names ++ name.now ∷ []) plain.new.texts plain.new.created window.new.items counts.new) }
    ensures kind { OnOk result (plain.new.kind ≡ Kind.Counted) }
    ensures capacity { OnOk result (window.new.capacity ≡ window.old.capacity) }
{
    let handle = intern_name(plain, counts, name)?;
    hold_handle(plain, window, counts, handle);
    Ok(())
}

/// Interns and holds the token where it is a name; any other token is passed over.
fn hold_token(
    plain: &mut Plain,
    window: &mut HeapCircularBuffer<Handle>,
    counts: &mut SymbolCounts,
    bytes: &[u8],
    token: Token,
) -> Result<(), AllocError>
    requires counted { plain.old.kind ≡ Kind.Counted }
    requires within { IsWithin bytes.now token }
    requires short { IsShort bytes.now token }
    requires room { plain.old.created < 2 ^ 32 - 1 }
    requires fits { CountsFit counts.old }
    requires window { IsSymbolWindow window.old.capacity }
    requires run { (names : List (List ℕ)) × SymbolRun window.old.capacity names plain.old.texts plain.old.created window.old.items counts.old }
    ensures held { (found : List Token) →
        SymbolRun window.old.capacity (names_among bytes.now found) plain.old.texts plain.old.created window.old.items counts.old →
        OnOk result (SymbolRun window.old.capacity (names_among bytes.now (found ++ token ∷ [])) plain.new.texts plain.new.created window.new.items counts.new) }
    ensures kind { OnOk result (plain.new.kind ≡ Kind.Counted) }
    ensures capacity { OnOk result (window.new.capacity ≡ window.old.capacity) }
{
    match token.kind {
        TokenKind::Name => hold_name(plain, window, counts, token.text(bytes)),
        TokenKind::Literal => Ok(()),
    }
}

/// The symbols of a file: what is left of its names after all were interned and the last few are held.
#[derive(Drop)]
pub(crate) struct Symbols {
    /// The interner, in which the names that are held are live.
    pub plain: Plain,
    /// How many names the file has, each as often as it stands there.
    pub names: u64,
    /// How often each answer came, and how many handles were dropped.
    pub counts: SymbolCounts,
}

/// The names of a file as far as its tokens were gone over, the last few of them held.
#[derive(Drop)]
pub(crate) struct Names {
    plain: Plain,
    window: HeapCircularBuffer<Handle>,
    counts: SymbolCounts,
}

impl Names {
    /// No token was gone over yet. Each name will be held until `hold` others were interned after it.
    pub(crate) fn new(alloc: Global, hold: usize) -> Result<Names, AllocError>
        ensures none { IfOk result (λ names. (bytes : List ℕ) → NamesSoFar hold bytes [] names.plain names.window names.counts) }
    {
        Ok(Names {
            plain: Plain::new(alloc, Kind::Counted),
            window: HeapCircularBuffer::with_capacity(alloc, hold)?,
            counts: SymbolCounts {
                created: 0,
                taken: 0,
                dropped: 0,
            },
        })
    }

    /// Interns and holds one token more where it is a name. Want of memory is the only error.
    pub(crate) fn add(&mut self, bytes: &[u8], token: Token) -> Result<(), AllocError>
        requires window { IsSymbolWindow self.old.window.capacity }
        requires within { IsWithin bytes.now token }
        requires short { IsShort bytes.now token }
        requires so_far { (found : List Token) × (length found < 2 ^ 32 - 1) ×
            NamesSoFar self.old.window.capacity bytes.now found self.old.plain self.old.window self.old.counts }
        ensures added { (found : List Token) →
            NamesSoFar self.old.window.capacity bytes.now found self.old.plain self.old.window self.old.counts →
            OnOk result (NamesSoFar self.old.window.capacity bytes.now (found ++ token ∷ []) self.new.plain self.new.window self.new.counts) }
    {
        hold_token(
            &mut self.plain,
            &mut self.window,
            &mut self.counts,
            bytes,
            token,
        )
    }

    /// What is left of the names once all were interned.
    pub(crate) fn into_symbols(self) -> Symbols
        requires few { self.counts.created + self.counts.taken < 2 ^ 64 }
        ensures plain { result.plain ≡ self.plain }
        ensures counts { result.counts ≡ self.counts }
        ensures names { result.names ≡ self.counts.created + self.counts.taken }
    {
        Symbols {
            names: self.counts.created + self.counts.taken,
            plain: self.plain,
            counts: self.counts,
        }
    }
}
