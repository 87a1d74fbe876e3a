//! Laws of scripts in a file's bytes. Each function does nothing: its contract is the law.
ghost use Rattle.std.specs.Prelude.{◌≡◌, ℕ, List};
ghost use Rattle.table_program.specs.ReplayRun.{IsReplay, HasScriptFault};

/// No bytes are scripts that print two texts.
pub fn bytes_print_one_text()
    ensures law { (bytes a b : List ℕ) → IsReplay bytes a → IsReplay bytes b → a ≡ b }
{}

/// Bytes whose script is run to its end have no line at fault.
pub fn replayed_bytes_have_no_fault()
    ensures law { (bytes text : List ℕ) (number : ℕ) → IsReplay bytes text → ¬ (HasScriptFault bytes number) }
{}

/// No bytes have their first line at fault at two numbers.
pub fn bytes_are_at_fault_at_one_line()
    ensures law { (bytes : List ℕ) (m n : ℕ) → HasScriptFault bytes m → HasScriptFault bytes n → m ≡ n }
{}
