//! The words of heads whose chain begins with a node.
ghost use Rattle.std.specs.Prelude.{◌≡◌};
ghost use Rattle.atomic_step.specs.Step as steps;

use marked_word::Head;

/// The word of a head without a mark.
#[inline(always)]
pub(crate) fn plain_head(first: Option<u32>) -> u64
    ensures value { result ≡ steps.plain_head first }
{
    let head = Head {
        node: first,
        lock: false,
        redirect: false,
    };
    head.to_word()
}

/// The word of a head with the lock.
#[inline(always)]
pub(crate) fn locked_head(first: Option<u32>) -> u64
    ensures value { result ≡ steps.locked_head first }
{
    let head = Head {
        node: first,
        lock: true,
        redirect: false,
    };
    head.to_word()
}

/// The word of a head with the lock and the redirect.
#[inline(always)]
pub(crate) fn redirected_head(first: Option<u32>) -> u64
    ensures value { result ≡ steps.redirected_head first }
{
    let head = Head {
        node: first,
        lock: true,
        redirect: true,
    };
    head.to_word()
}
