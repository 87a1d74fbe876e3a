//! The chains of a pair: a grow unzips one into two, and a shrink joins two to one.
ghost use Rattle.call_machine.specs.declared.resize.JoinStage.TheVariants as join;
ghost use Rattle.call_machine.specs.declared.resize.ResizeStage.TheVariants as stage;
ghost use Rattle.call_machine.specs.declared.resize.UnzipStage.TheVariants as unzip;
ghost use Rattle.call_machine.specs.Resize.{goes, joins_at, joins_from, raises};
ghost use Rattle.cht_run.specs.Resizes.{resized};
ghost use Rattle.cht_run.specs.Underway.{IsAt, Further, Onward};

use crate::operations::Began;
use crate::seat::Raw;
use crate::table::Cht;
use atomic_step::Step;
use call_machine::resize::{AfterGrace, Direction, ResizeAlong, Side};
use marked_word::{hash_in, link_word, node_of};

impl Cht {
    /// Loads the meta of a node: the side to which it belongs.
    #[inline(always)]
    fn load_side<M: Began>(
        &self,
        seat: &mut Raw,
        direction: Direction,
        along: &mut ResizeAlong,
        slot: u32,
    ) -> Side
        requires at { IsAt self.now M.sight M.call seat.old (resized M.sight direction (goes along.old (stage.Unzip (unzip.LoadMeta slot)))) }
        ensures on { Further self.now M.sight M.call seat.new (resized M.sight direction (goes along.old (stage.Unzip (unzip.LoadMeta slot)))) (resized M.sight direction (goes along.new (stage.Unzip (unzip.LoadLink slot result)))) }
    {
        let index = self.layout.meta(slot);
        let word = self.load(seat, Step::LoadMeta { slot }, index);
        along.passed = along.passed.saturating_add(1);
        Side::of(along.level, hash_in(word))
    }

    /// Loads the link of a node that is unzipped: the node behind it.
    #[inline(always)]
    fn load_behind<M: Began>(
        &self,
        seat: &mut Raw,
        direction: Direction,
        along: &ResizeAlong,
        slot: u32,
        side: Side,
    ) -> Option<u32>
        requires at { IsAt self.now M.sight M.call seat.old (resized M.sight direction (goes along.now (stage.Unzip (unzip.LoadLink slot side)))) }
        ensures on { Further self.now M.sight M.call seat.new (resized M.sight direction (goes along.now (stage.Unzip (unzip.LoadLink slot side)))) (resized M.sight direction (goes along.now (stage.Unzip (unzip.MoveEdge slot side result)))) }
    {
        let _of = (direction, *along, side);
        let index = self.layout.link(slot);
        node_of(self.load(seat, Step::LoadLink { slot }, index))
    }

    /// Moves the end of the other side past a node.
    #[inline(always)]
    fn move_edge<M: Began>(
        &self,
        seat: &mut Raw,
        direction: Direction,
        along: &mut ResizeAlong,
        slot: u32,
        side: Side,
        next: Option<u32>,
    )
        requires at { IsAt self.now M.sight M.call seat.old (resized M.sight direction (goes along.old (stage.Unzip (unzip.MoveEdge slot side next)))) }
        ensures on { Further self.now M.sight M.call seat.new (resized M.sight direction (goes along.old (stage.Unzip (unzip.MoveEdge slot side next)))) (resized M.sight direction (raises along.new AfterGrace.Unzip)) }
    {
        let edge = along.end_of(direction, side.other());
        let index = self.layout.edge(edge);
        self.store(seat, Step::MoveEdge { edge, next }, index, edge.word(next));
        along.chains = along.chains.moved(slot, side, next);
        along.rest = next;
    }

    /// Unzips a node: from now on it is in the chain of its side alone.
    pub(crate) fn unzip_node<M: Began>(
        &self,
        seat: &mut Raw,
        direction: Direction,
        along: &mut ResizeAlong,
        slot: u32,
    )
        requires at { IsAt self.now M.sight M.call seat.old (resized M.sight direction (goes along.old (stage.Unzip (unzip.LoadMeta slot)))) }
        ensures on { Further self.now M.sight M.call seat.new (resized M.sight direction (goes along.old (stage.Unzip (unzip.LoadMeta slot)))) (resized M.sight direction (raises along.new AfterGrace.Unzip)) }
    {
        let side = self.load_side::<M>(seat, direction, along, slot);
        let next = self.load_behind::<M>(seat, direction, along, slot, side);
        self.move_edge::<M>(seat, direction, along, slot, side, next);
    }

    /// Loads the link of a node of the even chain: the node behind it.
    #[inline(always)]
    fn next_of_even<M: Began>(
        &self,
        seat: &mut Raw,
        direction: Direction,
        along: &mut ResizeAlong,
        slot: u32,
    ) -> Option<u32>
        requires at { IsAt self.now M.sight M.call seat.old (resized M.sight direction (goes along.old (stage.Join (join.LoadLink slot)))) }
        ensures on { Further self.now M.sight M.call seat.new (resized M.sight direction (goes along.old (stage.Join (join.LoadLink slot)))) (resized M.sight direction (goes along.new (joins_at slot result))) }
    {
        let _of = direction;
        let index = self.layout.link(slot);
        let word = self.load(seat, Step::LoadLink { slot }, index);
        along.passed = along.passed.saturating_add(1);
        node_of(word)
    }

    /// Leads the last node of the even chain to the odd one.
    #[inline(always)]
    fn join_behind<M: Began>(
        &self,
        seat: &mut Raw,
        direction: Direction,
        along: &ResizeAlong,
        slot: u32,
    )
        requires at { IsAt self.now M.sight M.call seat.old (resized M.sight direction (goes along.now (stage.Join (join.JoinChains slot)))) }
        ensures on { Further self.now M.sight M.call seat.new (resized M.sight direction (goes along.now (stage.Join (join.JoinChains slot)))) (resized M.sight direction (goes along.now (stage.RedirectHead Side.Even))) }
    {
        let _of = direction;
        let next = along.chains.odd.first;
        let index = self.layout.link(slot);
        let step = Step::JoinChains { slot, next };
        self.store(seat, step, index, link_word(next));
    }

    /// Joins the two chains of the pair: along the even one to its last node, if it has any.
    pub(crate) fn join_pair<M: Began>(
        &self,
        seat: &mut Raw,
        direction: Direction,
        along: &mut ResizeAlong,
    )
        requires at { IsAt self.now M.sight M.call seat.old (resized M.sight direction (goes along.old (joins_from along.old.chains.even.first))) }
        ensures on { Onward self.now M.sight M.call seat.new (resized M.sight direction (goes along.old (joins_from along.old.chains.even.first))) (resized M.sight direction (goes along.new (stage.RedirectHead Side.Even))) }
    {
        let Some(first) = along.chains.even.first else {
            return;
        };
        let mut last = first;
        while let Some(next) = self.next_of_even::<M>(seat, direction, along, last) {
            last = next;
        }
        self.join_behind::<M>(seat, direction, along, last);
    }
}
