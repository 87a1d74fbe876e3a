//! What each byte is to the scan, by one look at a table.
ghost use Rattle.std.specs.Prelude.{◌≡◌, IsTrue};
ghost use Rattle.name_scan.specs.Classes.{IsOf, is_skipped, is_of_name};

/// What a byte is to the scan.
#[derive(Clone, Copy, Debug, PartialEq, Eq)]
pub(crate) enum Class {
    /// A byte of no other class.
    Other,
    /// It ends the text of a literal.
    Newline,
    /// Within a literal it takes the next byte along.
    Backslash,
    /// It stands before and behind the text of a literal.
    Quote,
    /// A digit, which is a name byte.
    Digit,
    /// Any other name byte.
    Letter,
}

impl Class {
    /// The class of the byte.
    #[inline(always)]
    pub(crate) fn of(byte: u8) -> Class
        ensures { IsOf result byte }
    {
        CLASSES[byte as usize]
    }

    /// Whether bytes of the class belong to runs.
    #[inline(always)]
    pub(crate) fn is_of_name(self) -> bool
        ensures { result ≡ is_of_name self }
    {
        matches!(self, Class::Digit | Class::Letter)
    }

    /// Whether a byte of the class is passed over where no run and no literal has it.
    #[inline(always)]
    pub(crate) fn is_skipped(self) -> bool
        ensures { result ≡ is_skipped self }
    {
        matches!(self, Class::Other | Class::Newline | Class::Backslash)
    }
}

const O: Class = Class::Other;

const N: Class = Class::Newline;

const B: Class = Class::Backslash;

const Q: Class = Class::Quote;

const D: Class = Class::Digit;

const L: Class = Class::Letter;

/// The class of each byte: a row has sixteen.
#[rattlefmt::skip]
static CLASSES: [Class; 256] = [
    O, O, O, O, O, O, O, O, O, O, N, O, O, O, O, O,
    O, O, O, O, O, O, O, O, O, O, O, O, O, O, O, O,
    O, O, Q, O, L, O, O, O, O, O, O, O, O, O, O, O,
    D, D, D, D, D, D, D, D, D, D, O, O, O, O, O, O,
    O, L, L, L, L, L, L, L, L, L, L, L, L, L, L, L,
    L, L, L, L, L, L, L, L, L, L, L, O, B, O, O, L,
    O, L, L, L, L, L, L, L, L, L, L, L, L, L, L, L,
    L, L, L, L, L, L, L, L, L, L, L, O, O, O, O, O,
    L, L, L, L, L, L, L, L, L, L, L, L, L, L, L, L, // 128 and on
    L, L, L, L, L, L, L, L, L, L, L, L, L, L, L, L,
    L, L, L, L, L, L, L, L, L, L, L, L, L, L, L, L,
    L, L, L, L, L, L, L, L, L, L, L, L, L, L, L, L,
    L, L, L, L, L, L, L, L, L, L, L, L, L, L, L, L,
    L, L, L, L, L, L, L, L, L, L, L, L, L, L, L, L,
    L, L, L, L, L, L, L, L, L, L, L, L, L, L, L, L,
    L, L, L, L, L, L, L, L, L, L, L, L, L, L, L, L,
];
