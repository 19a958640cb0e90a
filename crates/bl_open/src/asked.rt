//! The words that are given for a store's options.

use std::marker::Model;

/// The given words of the nine options, each in its range; `None` where a word is not given. Sizes are bytes.
#[derive(Clone, Copy, Debug, PartialEq, Eq)]
pub struct Asked {
    /// From how many bytes on a value leaves the tables for a blob file: 0 to 2^32.
    pub min_blob_size: Option<u64>,
    /// At what size a blob file is closed: 1 to 2^40.
    pub blob_file_size: Option<u64>,
    /// At what size the memory table is flushed: 1 to 2^40.
    pub write_buffer: Option<u64>,
    /// At what size a compaction closes a table: 1 to 2^40.
    pub table_size: Option<u64>,
    /// How many tables of level 0 make a compaction due: 1 to 1000.
    pub level0_trigger: Option<u64>,
    /// At what size level 1 is due: 1 to 2^40.
    pub level_base: Option<u64>,
    /// How many times as much each deeper level may hold: 2 to 20.
    pub level_factor: Option<u64>,
    /// How many per cent of the blob files, the oldest, a compaction relocates values out of: 0 to 100.
    pub age_cutoff: Option<u64>,
    /// From how many per cent of garbage on the oldest blob files are collected by force: 1 to 100.
    pub force_threshold: Option<u64>,
}

impl Model for Asked {
    ghost use Rattle.bl_open.specs.Options.{Words, AreAsked};

    ghost Value = { Words };

    ghost view = { λ a. record {
      min_blob_size = a.min_blob_size;
      blob_file_size = a.blob_file_size;
      write_buffer = a.write_buffer;
      table_size = a.table_size;
      level0_trigger = a.level0_trigger;
      level_base = a.level_base;
      level_factor = a.level_factor;
      age_cutoff = a.age_cutoff;
      force_threshold = a.force_threshold;
    } };

    ghost invariant = { λ a. AreAsked (record {
      min_blob_size = a.min_blob_size;
      blob_file_size = a.blob_file_size;
      write_buffer = a.write_buffer;
      table_size = a.table_size;
      level0_trigger = a.level0_trigger;
      level_base = a.level_base;
      level_factor = a.level_factor;
      age_cutoff = a.age_cutoff;
      force_threshold = a.force_threshold;
    }) };

    ghost inverse = { λ w. record {
      min_blob_size = w.min_blob_size;
      blob_file_size = w.blob_file_size;
      write_buffer = w.write_buffer;
      table_size = w.table_size;
      level0_trigger = w.level0_trigger;
      level_base = w.level_base;
      level_factor = w.level_factor;
      age_cutoff = w.age_cutoff;
      force_threshold = w.force_threshold;
    } };
}
