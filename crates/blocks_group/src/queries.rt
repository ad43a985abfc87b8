// RULES.md, Pop, Peek, Boundary and collection and Removal of collated blocks: what they ask of one group.
ghost use Rattle.std.specs.Prelude.{◌≡◌};
ghost use Rattle.block_records.specs.layout.Listed.{listed};
ghost use Rattle.blocks_group.specs.arrays.Group.{found_at};
ghost use Rattle.blocks_group.specs.arrays.Queries.{any_applied_above, collect_group, first_applied_block, first_applied_place, highest_below_boundary, lowest_collated_above, remove_collated_above};
ghost use Rattle.blocks_group.specs.layout.Block.{zero_block};

use crate::block::{Block, zero_block};
use crate::group::Group;
use block_records::entry::{held_applied, held_received};
use block_records::listed::place_by;
use std::cmp::Ordering;

impl<B: Block> Group<B> {
    // Where the first applied block from a seqno on stands, or how many are listed if there is none.
    pub fn first_applied_place(&self, from: u32) -> Result<usize, usize>
        ensures place { result ≡ first_applied_place B.parts from self.now }
        ensures block { found_at (zero_block B.parts) (listed self.now.entries) result ≡ first_applied_block B.parts from self.now }
    {
        place_by(self.entries.listed(), |block| {
            if from <= block.seqno() && held_applied(*block.entry()) {
                Ordering::Equal
            } else {
                Ordering::Less
            }
        })
    }

    // The first applied block from a seqno on.
    pub fn first_applied(&self, from: u32) -> Option<B>
        ensures { result ≡ first_applied_block B.parts from self.now }
    {
        self.entries
            .listed()
            .iter()
            .find(|block| from <= block.seqno() && held_applied(*block.entry()))
            .copied()
    }

    // Whether some block above a seqno is applied.
    pub fn any_applied_above(&self, seqno: u32) -> bool
        ensures { result ≡ any_applied_above B.parts seqno self.now }
    {
        self.entries.listed().iter().any(|block| seqno < block.seqno()
            && held_applied(*block.entry()))
    }

    // ===== collect =====

    // The highest seqno of the blocks that collect removes.
    #[tactic(auto, using(crate::proofs::arrays::QueryLaws::none_below))]
    pub fn highest_below_boundary(&self) -> Option<u32>
        ensures { result ≡ highest_below_boundary B.parts self.now }
    {
        let key = self.boundary?;
        self.entries
            .listed()
            .iter()
            .filter(|block| block.seqno() < key.seqno)
            .map(|block| block.seqno())
            .max()
    }

    // Without the blocks below the boundary.
    pub fn collected(&self) -> Self
        ensures { result ≡ collect_group B.parts self.now }
    {
        let Some(key) = self.boundary else {
            return *self;
        };
        Group {
            entries: self
                .entries
                .retained(|block| key.seqno <= block.seqno(), zero_block()),
            ..*self
        }
    }

    // ===== remove next collated =====

    // The lowest seqno of the blocks that the removal above a seqno takes.
    pub fn lowest_collated_above(&self, seqno: u32) -> Option<u32>
        ensures { result ≡ lowest_collated_above B.parts seqno self.now }
    {
        self.entries
            .listed()
            .iter()
            .filter(|block| seqno < block.seqno() && !held_received(*block.entry()))
            .map(|block| block.seqno())
            .min()
    }

    // Without the blocks above a seqno that are not Received.
    pub fn without_collated_above(&self, seqno: u32) -> Self
        ensures { result ≡ remove_collated_above B.parts seqno self.now }
    {
        Group {
            entries: self.entries.retained(
                |block| block.seqno() <= seqno || held_received(*block.entry()),
                zero_block(),
            ),
            ..*self
        }
    }
}
