//! What a compaction takes in, and where it puts what comes out.

use bl_edit::Items;

/// The plan of one compaction: its input tables, the level that its output goes to, and what it keeps.
#[derive(Drop)]
pub struct CompactionPlan {
    /// The numbers of the input tables, ascending.
    pub inputs: Items<u64>,
    /// The least level that holds an input, at most 6.
    pub in_level: u32,
    /// The level of its output, at most 6.
    pub out_level: u32,
    /// Values in blob files of lower numbers than this one are relocated.
    pub cutoff: u64,
    /// The sequences of the live snapshots, ascending.
    pub snapshots: Items<u64>,
    /// Whether no deeper level has a table that overlaps the inputs.
    pub bottom: bool,
}
