//! Laws of scripts, their faults and their runs. Each function does nothing: its contract is the law.
ghost use Rattle.std.specs.Prelude.{◌≡◌, [], ℕ, List};
ghost use Rattle.cht_core.specs.State.{Core};
ghost use Rattle.schedule_sim.specs.declared.script.Numbered.{Numbered};
ghost use Rattle.schedule_sim.specs.declared.script.Script.{Script};
ghost use Rattle.schedule_sim.specs.PrintedLines.{Printed};
ghost use Rattle.schedule_sim.specs.Same.{IsSameScript};
ghost use Rattle.schedule_sim.specs.Script.{IsScript, IsFault};
ghost use Rattle.schedule_sim.specs.Turns.{AllTurn, AreDrawn, FailsAt, Opens, Runs};

/// No bytes are a script and have a fault.
pub fn scripts_have_no_fault()
    ensures law { (bytes : List ℕ) (script : Script) (number : ℕ) → IsScript bytes script → ¬ (IsFault bytes number) }
{}

/// No bytes have their first fault at two lines.
pub fn faults_are_at_one_line()
    ensures law { (bytes : List ℕ) (m n : ℕ) → IsFault bytes m → IsFault bytes n → m ≡ n }
{}

/// Two scripts of the same bytes are of the same table and have the same lines.
pub fn scripts_of_bytes_are_one()
    ensures law { (bytes : List ℕ) (s t : Script) → IsScript bytes s → IsScript bytes t → IsSameScript s t }
{}

/// Scripts that say the same print the same text.
pub fn same_scripts_run_alike()
    ensures law { (s t : Script) (text : List ℕ) → IsSameScript s t → Runs s text → Runs t text }
{}

/// In the state with which a script begins, each number of the table is drawn.
pub fn a_script_begins_with_all_numbers_drawn()
    ensures law { (s : Script) (c : Core) → Opens s c → AreDrawn s.shape.seats c }
{}

/// In the state with which a script begins, the log is empty.
pub fn a_script_begins_with_an_empty_log()
    ensures law { (s : Script) (c : Core) → Opens s c → c.log ≡ [] }
{}

/// Numbers that are drawn stay drawn, whatever lines have their turns.
pub fn numbers_stay_drawn()
    ensures law { (lines : List Numbered) (c d : Core) (items : List Printed) (seats : ℕ) → AllTurn lines c items d → AreDrawn seats c → AreDrawn seats d }
{}

/// No script prints two texts.
pub fn runs_print_one_text()
    ensures law { (s : Script) (a b : List ℕ) → Runs s a → Runs s b → a ≡ b }
{}

/// A script that runs to its end is at fault at no line.
pub fn runs_have_no_fault()
    ensures law { (s : Script) (text : List ℕ) (number : ℕ) → Runs s text → ¬ (FailsAt s number) }
{}

/// No script is at fault at two lines.
pub fn faults_of_a_run_are_at_one_line()
    ensures law { (s : Script) (m n : ℕ) → FailsAt s m → FailsAt s n → m ≡ n }
{}
