//! A move, and what it changes.
ghost use Rattle.std.specs.Prelude.{◌≡◌, length};
ghost use Rattle.resize_core.specs.Moves.{IsPlaceIn, links_after, heads_after};

/// The first nodes of the even and of the odd chain.
#[derive(Clone, Copy, Debug, PartialEq, Eq)]
pub struct Heads {
    pub even: Option<u32>,
    pub odd: Option<u32>,
}

/// Where a link to a next node is.
#[derive(Clone, Copy, Debug, PartialEq, Eq)]
pub enum Place {
    /// The head of the even chain.
    EvenHead,
    /// The head of the odd chain.
    OddHead,
    /// The link of this node.
    Link(u32),
}

impl Place {
    ghost use Rattle.std.specs.Prelude.{◌↔◌, IsTrue};
    ghost use Rattle.resize_core.specs.Moves.{IsPlaceIn};

    /// Whether this is a head, or one of so many links.
    pub fn is_in(&self, links: usize) -> bool
        ensures value { IsTrue result ↔ IsPlaceIn links self.now }
    {
        match *self {
            Place::EvenHead | Place::OddHead => true,
            Place::Link(node) => (node as usize) < links,
        }
    }
}

/// One link to be stored.
#[derive(Clone, Copy, Debug, PartialEq, Eq)]
pub struct Move {
    /// Where it is stored.
    pub place: Place,
    /// The node that is the next one there from then on, if any.
    pub to: Option<u32>,
}

/// Does one move: stores its node at its place. All else stays.
pub fn apply(next: &mut [Option<u32>], heads: &mut Heads, step: Move)
    requires inside { IsPlaceIn (length next.old) step.place }
    ensures links { next.new ≡ links_after next.old step }
    ensures heads { heads.new ≡ heads_after heads.old step }
{
    match step.place {
        Place::EvenHead => heads.even = step.to,
        Place::OddHead => heads.odd = step.to,
        Place::Link(node) => next[node as usize] = step.to,
    }
}
