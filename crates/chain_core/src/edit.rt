//! Changing a chain by one link.
ghost use Rattle.std.specs.Prelude.{◌≡◌, ◌<◌, ◌++◌, ℕ, List, Option, Some, None, Contains, length, slice_get, slice_set};
ghost use Rattle.chain_core.specs.Path.{IsPathIn, next_in, without};

/// Takes `node` out of the chain after `before`: the next node of `before` is then that of `node`.
/// The link of `node` itself stays, so who is there still finds the rest of the chain.
pub fn unlink(next: &mut [Option<u32>], before: u32, node: u32)
    requires follows { slice_get next.old before ≡ Some (Some node) }
    requires inside { node < length next.old }
    ensures stored { next.new ≡ slice_set next.old before (next_in next.old node) }
    ensures path { (first : Option ℕ) (nodes : List ℕ) → IsPathIn next.old first nodes → Contains nodes before →
        IsPathIn next.new first (without node nodes) }
    ensures others { (first : Option ℕ) (nodes : List ℕ) → IsPathIn next.old first nodes → ¬ (Contains nodes before) →
        IsPathIn next.new first nodes }
{
    next[before as usize] = next[node as usize];
}

/// Puts the chain from `other` after `last`, which has no next node.
pub fn append(next: &mut [Option<u32>], last: u32, other: Option<u32>)
    requires ends { slice_get next.old last ≡ Some None }
    ensures stored { next.new ≡ slice_set next.old last other }

    // A path that passes `last` ends there.
    ensures path { (first : Option ℕ) (nodes rest : List ℕ) → IsPathIn next.old first nodes → Contains nodes last →
        IsPathIn next.old other rest → ¬ (Contains rest last) → IsPathIn next.new first (nodes ++ rest) }
    ensures others { (first : Option ℕ) (nodes : List ℕ) → IsPathIn next.old first nodes → ¬ (Contains nodes last) →
        IsPathIn next.new first nodes }
{
    next[last as usize] = other;
}

#[cfg(test)]
mod tests {
    use super::*;

    #[test]
    fn a_node_is_taken_out_and_a_chain_put_after(rt: HostRuntime) {
        // 3, 1, 0 and beside it 2
        let mut next = [None, Some(0), None, Some(1)];
        unlink(&mut next, 3, 1);
        assert_eq!(rt; next, [None, Some(0), None, Some(0)]);
        append(&mut next, 0, Some(2));
        assert_eq!(rt; next, [Some(2), Some(0), None, Some(0)]);
    }
}
