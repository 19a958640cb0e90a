//! The options of a store: given words over its values, and the first word that differs from them.

ghost use Rattle.std.specs.Prelude.{◌≡◌};
ghost use Rattle.bl_open.specs.Options.{check_option as option_checked, check_options as options_checked, defaults, given_or};

use crate::asked::Asked;
use crate::error::OpenErr;
use bl_edit::Options;

/// The options of a new store: the given words, and else the defaults.
pub(crate) fn new_options(asked: &Asked) -> Options
    ensures { result ≡ given_or defaults asked.now }
{
    Options {
        min_blob_size: asked.min_blob_size.unwrap_or(0),
        blob_file_size: asked.blob_file_size.unwrap_or(268_435_456),
        write_buffer: asked.write_buffer.unwrap_or(67_108_864),
        table_size: asked.table_size.unwrap_or(67_108_864),
        level0_trigger: asked.level0_trigger.unwrap_or(4),
        level_base: asked.level_base.unwrap_or(268_435_456),
        level_factor: asked.level_factor.unwrap_or(10),
        age_cutoff: asked.age_cutoff.unwrap_or(25),
        force_threshold: asked.force_threshold.unwrap_or(100),
    }
}

// The word of an option, if it is given, is the stored value.
fn check_option(option: u8, stored: u64, asked: Option<u64>) -> Result<(), OpenErr>
    ensures { result ≡ option_checked option stored asked }
{
    match asked {
        Some(asked) if asked != stored => Err(OpenErr::Differ {
            option,
            stored,
            asked,
        }),
        Some(_) | None => Ok(()),
    }
}

/// Each given word is the stored value. It takes no memory.
///
/// Errors: `Differ` alone, exactly at the first option, in their order from 1 to 9, whose word is another.
#[tactic(auto, unfolding(crate::specs::Options::check_options))]
pub(crate) fn check_options(asked: &Asked, stored: &Options) -> Result<(), OpenErr>
    ensures { result ≡ options_checked stored.now asked.now }
{
    check_option(1, stored.min_blob_size, asked.min_blob_size)?;
    check_option(2, stored.blob_file_size, asked.blob_file_size)?;
    check_option(3, stored.write_buffer, asked.write_buffer)?;
    check_option(4, stored.table_size, asked.table_size)?;
    check_option(5, stored.level0_trigger, asked.level0_trigger)?;
    check_option(6, stored.level_base, asked.level_base)?;
    check_option(7, stored.level_factor, asked.level_factor)?;
    check_option(8, stored.age_cutoff, asked.age_cutoff)?;
    check_option(9, stored.force_threshold, asked.force_threshold)
}
