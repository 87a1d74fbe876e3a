//! A slot that has had two entries and was not unlinked between them is linked as the second one.
//! Each function does nothing: its contract is the law.
ghost use Rattle.intern_log.specs.Sections.{IsLinkedAs, IsLinkedAt, IsCareful};
ghost use Rattle.intern_log.specs.WorkedLog.{cat, first_cat, second_cat};
ghost use Rattle.intern_log.specs.RefilledLog.{dog, before_the_unlink, refilled_log};

/// The slot is linked as its second entry, since place 3.
pub fn second_entry_is_linked()
    ensures law { IsLinkedAt before_the_unlink 0 dog second_cat 3 }
{}

/// It is not linked as its first one.
pub fn first_entry_is_not_linked()
    ensures law { ¬ (IsLinkedAs before_the_unlink 0 cat first_cat) }
{}

/// So the Unlink of the slot, whose second entry is live, is not careful.
pub fn refilled_log_is_not_careful()
    ensures law { ¬ (IsCareful refilled_log) }
{}

#[cfg(test)]
mod tests {
    use super::*;

    #[test]
    fn laws_can_be_called() {
        second_entry_is_linked();
        first_entry_is_not_linked();
        refilled_log_is_not_careful();
    }
}
