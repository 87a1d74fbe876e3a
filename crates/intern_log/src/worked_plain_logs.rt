//! Two small plain logs, which are those of their names and of their literals.
//! Each function does nothing: its contract is the law.
ghost use Rattle.intern_log.specs.PlainLogs.{IsPlainSymbolLog, IsPlainStringLog};
ghost use Rattle.intern_log.specs.WorkedPlainLogs.{a_b_a, worked_symbol_log, worked_string_log};

/// The symbol log of a, b and a again with a window of two creates both texts, takes the first and drops it.
pub fn symbol_log_of_three_names()
    ensures law { IsPlainSymbolLog 2 a_b_a worked_symbol_log }
{}

/// The string log of a, b and a again, of which the last is final, creates both texts, finds the first and kills the other.
pub fn string_log_of_three_literals()
    ensures law { IsPlainStringLog 1 a_b_a worked_string_log }
{}

#[cfg(test)]
mod tests {
    use super::*;

    #[test]
    fn laws_can_be_called() {
        symbol_log_of_three_names();
        string_log_of_three_literals();
    }
}
