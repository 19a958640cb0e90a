//! The numbers that are fixed for a store.

use std::marker::Model;

/// What is fixed for a store once it is made, each number in its range. Sizes are bytes.
#[derive(Clone, Copy, Debug, PartialEq, Eq)]
pub struct Options {
    /// From how many bytes on a value leaves the tables for a blob file: 0 to 2^32.
    pub min_blob_size: u64,
    /// At what size a blob file is closed: 1 to 2^40.
    pub blob_file_size: u64,
    /// At what size the memory table is flushed: 1 to 2^40.
    pub write_buffer: u64,
    /// At what size a compaction closes a table: 1 to 2^40.
    pub table_size: u64,
    /// How many tables of level 0 make a compaction due: 1 to 1000.
    pub level0_trigger: u64,
    /// At what size level 1 is due: 1 to 2^40.
    pub level_base: u64,
    /// How many times as much each deeper level may hold: 2 to 20.
    pub level_factor: u64,
    /// How many per cent of the blob files, the oldest, a compaction relocates values out of: 0 to 100.
    pub age_cutoff: u64,
    /// From how many per cent of garbage on the oldest blob files are collected by force: 1 to 100.
    pub force_threshold: u64,
}

impl Model for Options {
    ghost use Rattle.bl_edit.specs.Options.{Values, AreInRange};

    ghost Value = { Values };

    ghost view = { λ o. record {
      min_blob_size = o.min_blob_size;
      blob_file_size = o.blob_file_size;
      write_buffer = o.write_buffer;
      table_size = o.table_size;
      level0_trigger = o.level0_trigger;
      level_base = o.level_base;
      level_factor = o.level_factor;
      age_cutoff = o.age_cutoff;
      force_threshold = o.force_threshold;
    } };

    ghost invariant = { λ o. AreInRange (record {
      min_blob_size = o.min_blob_size;
      blob_file_size = o.blob_file_size;
      write_buffer = o.write_buffer;
      table_size = o.table_size;
      level0_trigger = o.level0_trigger;
      level_base = o.level_base;
      level_factor = o.level_factor;
      age_cutoff = o.age_cutoff;
      force_threshold = o.force_threshold;
    }) };

    ghost inverse = { λ v. record {
      min_blob_size = v.min_blob_size;
      blob_file_size = v.blob_file_size;
      write_buffer = v.write_buffer;
      table_size = v.table_size;
      level0_trigger = v.level0_trigger;
      level_base = v.level_base;
      level_factor = v.level_factor;
      age_cutoff = v.age_cutoff;
      force_threshold = v.force_threshold;
    } };
}
