//! The levels, buckets and chains of a pair.
ghost use Rattle.std.specs.Prelude.{◌≡◌, ◌≤◌};
ghost use Rattle.table_shape.specs.declared.shape.Shape.{Shape};
ghost use Rattle.table_shape.specs.Shape.{IsSound};
ghost use Rattle.call_machine.specs.Pass.{first_behind};
ghost use Rattle.call_machine.specs.Resize as resizes;
ghost use Rattle.call_machine.specs.SoundResize.{LeadsToLevel};

use super::{Chain, Chains, Direction, JoinStage, ResizeStage, Side, UnzipStage};

impl Direction {
    /// The level to which a resize leads that begins at this one.
    pub fn end_level(self, level: u8) -> u8
        requires level { (shape : Shape) × IsSound shape × LeadsToLevel shape self level }
        ensures value { result ≡ resizes.end_level self level }
    {
        match self {
            Direction::Grow => level + 1,
            Direction::Shrink => level - 1,
        }
    }

    /// How far the two buckets of a pair are apart.
    pub fn half(self, level: u8) -> u32
        requires level { (shape : Shape) × IsSound shape × LeadsToLevel shape self level }
        ensures value { result ≡ resizes.half self level }
        ensures small { result ≤ 1048576 }
    {
        match self {
            Direction::Grow => 1u32 << level,
            Direction::Shrink => 1u32 << (level - 1),
        }
    }

    /// The first node of a head that is made.
    pub fn new_first(self, chains: Chains, side: Side) -> Option<u32>
        ensures value { result ≡ resizes.new_first self chains side }
    {
        match self {
            Direction::Grow => chains.at(side).first,
            Direction::Shrink => joined_first(chains.even.first, chains.odd.first),
        }
    }

    /// What comes once a head of the new row is written.
    pub(super) fn after_put(self, chains: Chains, side: Side) -> ResizeStage
        ensures value { result ≡ resizes.after_put self chains side }
    {
        match (self, side) {
            (Direction::Grow, Side::Even) => ResizeStage::PutHead { side: Side::Odd },
            (Direction::Grow, Side::Odd) => ResizeStage::RedirectHead { side: Side::Even },
            (Direction::Shrink, _) => joins_from(chains.even.first),
        }
    }
}

impl Side {
    pub fn other(self) -> Side
        ensures value { result ≡ resizes.other self }
    {
        match self {
            Side::Even => Side::Odd,
            Side::Odd => Side::Even,
        }
    }

    /// The side of a text with this hash in the row above a level.
    pub fn of(level: u8, hash: u32) -> Side
        requires level { level ≤ 20 }
        ensures value { result ≡ resizes.side_of level hash }
    {
        if hash >> level & 1 == 1 {
            Side::Odd
        } else {
            Side::Even
        }
    }
}

impl Chain {
    /// A chain that begins with this node, of which none was passed.
    pub fn from(first: Option<u32>) -> Chain
        ensures value { result ≡ resizes.chain_from first }
    {
        Chain { first, last: None }
    }

    /// Its end leads to another node.
    fn leads_to(self, next: Option<u32>) -> Chain
        ensures value { result ≡ resizes.leads_to self next }
    {
        match self.last {
            None => Chain {
                first: next,
                last: None,
            },
            Some(_) => self,
        }
    }

    /// A node was passed and stays.
    fn ends_at(self, slot: u32) -> Chain
        ensures value { result ≡ record self { last = Some slot } }
    {
        Chain {
            last: Some(slot),
            ..self
        }
    }
}

impl Chains {
    /// Chains that begin with these nodes.
    pub fn from(even: Option<u32>, odd: Option<u32>) -> Chains
        ensures value { result ≡ resizes.chains_from even odd }
    {
        Chains {
            even: Chain::from(even),
            odd: Chain::from(odd),
        }
    }

    /// The chain of a side.
    pub fn at(self, side: Side) -> Chain
        ensures value { result ≡ resizes.chain_at self side }
    {
        match side {
            Side::Even => self.even,
            Side::Odd => self.odd,
        }
    }

    /// The chains after the end of the other side was moved past a node of this one.
    pub fn moved(self, slot: u32, side: Side, next: Option<u32>) -> Chains
        ensures value { result ≡ resizes.moved self slot side next }
    {
        match side {
            Side::Even => Chains {
                even: self.even.ends_at(slot),
                odd: self.odd.leads_to(next),
            },
            Side::Odd => Chains {
                even: self.even.leads_to(next),
                odd: self.odd.ends_at(slot),
            },
        }
    }
}

/// The first node of two chains that are joined.
fn joined_first(even: Option<u32>, odd: Option<u32>) -> Option<u32>
    ensures value { result ≡ resizes.joined_first even odd }
{
    match even {
        None => odd,
        Some(slot) => Some(slot),
    }
}

/// Along the even chain to its end, or where there is none at once to the redirects.
fn joins_from(even: Option<u32>) -> ResizeStage
    ensures value { result ≡ resizes.joins_from even }
{
    match even {
        None => ResizeStage::RedirectHead { side: Side::Even },
        Some(slot) => ResizeStage::Join(JoinStage::LoadLink { slot }),
    }
}

/// At the end of the even chain, or at its next node.
pub(super) fn joins_at(slot: u32, next: Option<u32>) -> ResizeStage
    ensures value { result ≡ resizes.joins_at slot next }
{
    match next {
        None => ResizeStage::Join(JoinStage::JoinChains { slot }),
        Some(slot) => ResizeStage::Join(JoinStage::LoadLink { slot }),
    }
}

/// At the next node of a chain that is unzipped, or at its end.
pub(super) fn unzips_on(next: Option<u32>) -> ResizeStage
    ensures value { result ≡ resizes.unzips_on next }
{
    match next {
        None => ResizeStage::UnlockHead { side: Side::Even },
        Some(slot) => ResizeStage::Unzip(UnzipStage::LoadMeta { slot }),
    }
}
