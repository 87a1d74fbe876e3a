//! Laws of seats that come, begin, rest and go, beside the steps of the kinds. The words and the log stay as they are.
//!
//! Each function does nothing: its contract is the law.
ghost use Rattle.cht_core.specs.Begins.{MayBegin, MayRest, MayBeAdded, MayJoin};

/// A seat between its calls may begin each call whose condition holds.
pub fn seats_may_begin_a_call()
    ensures law { MayBegin }
{}

/// A seat whose call has answered may be between its calls.
pub fn seats_may_rest_after_an_answer()
    ensures law { MayRest }
{}

/// A seat whose number nobody has may be added.
pub fn new_seats_may_be_added()
    ensures law { MayBeAdded }
{}

/// An idle seat without a work or a grace may be joined into another one, which then has the numbers of both.
pub fn seats_may_be_joined()
    ensures law { MayJoin }
{}
