//! The literals of a file: interned in order, and all killed that are not among the last.
ghost use Rattle.std.specs.Prelude.{◌≡◌, ℕ, ◌+◌, ◌-◌, ◌^◌, ◌<◌, ◌≤◌, List, [], ◌∷◌, ◌++◌, length, All, IfOk, OnOk, if◌then◌else◌};
ghost use Rattle.intern_log.specs.Finals.{is_among_texts};
ghost use Rattle.name_scan.specs.FileTexts.{text_of, literals_among};
ghost use Rattle.name_scan.specs.Places.{IsWithin};
ghost use Rattle.name_scan.specs.declared.Token.{Token};
ghost use Rattle.table_program.specs.MadeEntries.{texts_of, AreWithin, IsLiteralRun, IsListing, LiteralsSoFar};
ghost use Rattle.table_program.specs.StringRun.{IsStringsOf};
ghost use Rattle.table_program.specs.declared.literals.MadeEntry.{MadeEntry};

use circular_buffer::HeapCircularBuffer;
use intern_log::{Handle, Kind};
use name_scan::{Token, TokenKind};
use plain_interner::{Plain, PlainInterned};
use std::alloc::{AllocError, Global};
use table_report::StringCounts;

/// The strings of a file: what is left of its literals after all were interned, and those that are
/// not among the last were killed.
#[derive(Drop)]
pub(crate) struct Strings {
    /// The interner, in which the last literals are live.
    pub plain: Plain,
    /// How many literals the file has, each as often as it stands there.
    pub literals: u64,
    /// How often each outcome came, and how many entries were killed.
    pub counts: StringCounts,
}

/// An entry that an intern made: the literal that it was made for, and its handle.
#[derive(Clone, Copy, Debug, PartialEq, Eq)]
struct MadeEntry {
    literal: Token,
    handle: Handle,
}

/// Whether the text is that of one of the literals. It compares the text with each of them.
fn is_among(bytes: &[u8], literals: &[Token], text: &[u8]) -> bool
    requires { All (IsWithin bytes.now) literals.now }
    ensures { result ≡ is_among_texts (texts_of bytes.now literals.now) text.now }
{
    for literal in literals {
        if text == literal.text(bytes) {
            return true;
        }
    }
    false
}

/// Interns a literal, and keeps its handle for the listing where it got a new entry.
fn intern_literal(
    plain: &mut Plain,
    made: &mut Vec<MadeEntry>,
    bytes: &[u8],
    literal: Token,
) -> Result<(), AllocError>
    requires within { IsWithin bytes.now literal }
    requires short { length (text_of bytes.now literal) ≤ 65535 }
    requires room { plain.old.created < 2 ^ 32 - 1 }
    requires weak { plain.old.kind ≡ Kind.Weak }
    ensures weak { OnOk result (plain.new.kind ≡ Kind.Weak) }
    ensures within { OnOk result (AreWithin bytes.now made.old.items → AreWithin bytes.now made.new.items) }
    ensures run { OnOk result ((literals : List (List ℕ)) →
        IsLiteralRun bytes.now literals plain.old made.old.items →
        IsLiteralRun bytes.now (literals ++ text_of bytes.now literal ∷ []) plain.new made.new.items) }
{
    match plain.intern(literal.text(bytes))? {
        PlainInterned::Created(handle) => {
            made.push(MadeEntry { literal, handle })?;
            Ok(())
        }
        _ => Ok(()),
    }
}

/// Kills the entry where its text is not that of a final literal, and tells whether it did.
fn list_entry(plain: &mut Plain, bytes: &[u8], final_literals: &[Token], entry: MadeEntry) -> bool
    requires within { IsWithin bytes.now entry.literal }
    requires finals_within { All (IsWithin bytes.now) final_literals.now }
    requires weak { plain.old.kind ≡ Kind.Weak }
    ensures weak { plain.new.kind ≡ Kind.Weak }
    ensures listing { (literals : List (List ℕ)) (listed left : List MadeEntry) (killed : ℕ) →
        IsListing bytes.now final_literals.now literals listed (entry ∷ left) plain.old killed →
        IsListing bytes.now final_literals.now literals (listed ++ entry ∷ []) left plain.new
        (killed + (if result then 1 else 0)) }
{
    if is_among(bytes, final_literals, entry.literal.text(bytes)) {
        return false;
    }
    plain.kill(entry.handle)
}

/// Kills the entries whose texts are not those of final literals, in the order in which they were
/// made. The answer is how many there were.
fn list_entries(
    plain: &mut Plain,
    bytes: &[u8],
    final_literals: &[Token],
    made: &[MadeEntry],
) -> u64
    requires within { AreWithin bytes.now made.now }
    requires finals_within { All (IsWithin bytes.now) final_literals.now }
    requires weak { plain.old.kind ≡ Kind.Weak }
    ensures listing { (literals : List (List ℕ)) →
        IsListing bytes.now final_literals.now literals [] made.now plain.old 0 →
        IsListing bytes.now final_literals.now literals made.now [] plain.new result }
{
    let mut killed = 0;
    for entry in made {
        killed += u64::from(list_entry(plain, bytes, final_literals, *entry));
    }
    killed
}

/// The literals of a file as far as its tokens were gone over: the entries that they made, and the
/// last few of them.
#[derive(Drop)]
pub(crate) struct Literals {
    plain: Plain,
    made: Vec<MadeEntry>,
    last: HeapCircularBuffer<Token>,
    count: u64,
}

impl Literals {
    /// No token was gone over yet. The last `hold` literals will stay.
    pub(crate) fn new(alloc: Global, hold: usize) -> Result<Literals, AllocError>
        ensures none { IfOk result (λ literals. (bytes : List ℕ) →
            LiteralsSoFar hold bytes [] literals.plain literals.made.items literals.last literals.count) }
    {
        Ok(Literals {
            plain: Plain::new(alloc, Kind::Weak),
            made: Vec::new(alloc),
            last: HeapCircularBuffer::with_capacity(alloc, hold)?,
            count: 0,
        })
    }

    /// Interns one token more where it is a literal. Want of memory is the only error.
    pub(crate) fn add(&mut self, bytes: &[u8], token: Token) -> Result<(), AllocError>
        requires window { 0 < self.old.last.capacity }
        requires within { IsWithin bytes.now token }
        requires short { length (text_of bytes.now token) ≤ 65535 }
        requires so_far { (found : List Token) × (length found < 2 ^ 32 - 1) ×
            LiteralsSoFar self.old.last.capacity bytes.now found self.old.plain self.old.made.items self.old.last self.old.count }
        ensures added { (found : List Token) →
            LiteralsSoFar self.old.last.capacity bytes.now found self.old.plain self.old.made.items self.old.last self.old.count →
            OnOk result (LiteralsSoFar self.old.last.capacity bytes.now (found ++ token ∷ []) self.new.plain self.new.made.items self.new.last self.new.count) }
    {
        match token.kind {
            TokenKind::Name => Ok(()),
            TokenKind::Literal => {
                intern_literal(&mut self.plain, &mut self.made, bytes, token)?;
                self.last.push_back(token);
                self.count += 1;
                Ok(())
            }
        }
    }

    /// Kills each text that is not among the last literals, in the order in which their entries were
    /// made. The only error is want of memory. It compares each text that has an entry with the last
    /// literals, one by one.
    pub(crate) fn into_strings(mut self, alloc: Global, bytes: &[u8]) -> Result<Strings, AllocError>
        requires so_far { (found : List Token) × LiteralsSoFar self.last.capacity bytes.now found self.plain self.made.items self.last self.count }
        ensures strings { (found : List Token) →
            LiteralsSoFar self.last.capacity bytes.now found self.plain self.made.items self.last self.count →
            IfOk result (λ strings. IsStringsOf self.last.capacity (literals_among bytes.now found) strings.plain.texts strings.counts) }
        ensures literals { IfOk result (λ strings. strings.literals ≡ self.count) }
    {
        let last = self.last.to_vec(alloc)?;
        let killed = list_entries(
            &mut self.plain,
            bytes,
            last.as_slice(),
            self.made.as_slice(),
        );
        let created = self.plain.created();
        Ok(Strings {
            plain: self.plain,
            literals: self.count,
            counts: StringCounts {
                created,
                found: self.count - created,
                killed,
            },
        })
    }
}
