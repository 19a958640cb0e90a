//! What the words of the program ask for.

ghost use Rattle.std.specs.Prelude.{◌≡◌, ℕ, List, Option, map, MatchOption, string_bytes};
ghost use Rattle.bl_edit.specs.Options.{IsBetween};
ghost use Rattle.bl_words.specs.declared.parse.Setting.{Setting};
ghost use Rattle.bl_words.specs.Options.{AreInRange, in_order};
ghost use Rattle.bl_words.specs.Parsing.{AreRefused, AsksFor, IsSetting, Spells, Takes};

use crate::options::{option_named, row_of};
use bl_open::Asked;

// What a word and the one behind it set: an option, by its number, to a value.
#[derive(Clone, Copy)]
pub(crate) struct Setting {
    pub option: u8,
    pub value: u64,
}

// The number between these that the text spells in one to twenty digits.
fn value_in(text: &str, least: u64, greatest: u64) -> Option<u64>
    ensures { MatchOption result ((value : ℕ) → Spells text.now value → ¬ IsBetween least greatest value)
        (λ value. Spells text.now value × IsBetween least greatest value) }
{
    if text.len() > 20 || text.starts_with('+') {
        return None;
    }
    let value = text.parse::<u64>().ok()?;
    if least <= value && value <= greatest {
        Some(value)
    } else {
        None
    }
}

// What a word and the one behind it set.
fn setting_of(word: &str, text: &str) -> Option<Setting>
    ensures { MatchOption result ((s : Setting) → ¬ IsSetting word.now text.now s) (IsSetting word.now text.now) }
{
    let name = word.strip_prefix("--")?;
    let option = option_named(name)?;
    let row = row_of(option);
    let value = value_in(text, row.least, row.greatest)?;
    Some(Setting { option, value })
}

// Of each option the value that is asked for, in their order: after one setting more, of an option that none was asked for.
fn take(given: [Option<u64>; 9], word: &str, text: &str) -> Option<[Option<u64>; 9]>
    ensures { MatchOption result ((after : List (Option ℕ)) → ¬ Takes given word.now text.now after) (Takes given word.now text.now) }
{
    let setting = setting_of(word, text)?;
    let place = usize::from(setting.option) - 1;
    if given[place].is_some() {
        return None;
    }
    let mut then = given;
    then[place] = Some(setting.value);
    Some(then)
}

// What is asked for, of these values in the order of the options.
fn asked_of(given: [Option<u64>; 9]) -> Asked
    requires { AreInRange given }
    ensures { in_order result ≡ given }
{
    Asked {
        min_blob_size: given[0],
        blob_file_size: given[1],
        write_buffer: given[2],
        table_size: given[3],
        level0_trigger: given[4],
        level_base: given[5],
        level_factor: given[6],
        age_cutoff: given[7],
        force_threshold: given[8],
    }
}

/// What the words of the program ask of a store's options: each option is a word of two dashes and its name, with its value in the
/// word behind it, one to twenty digits. It takes no memory.
///
/// None exactly where the words are not such pairs, an option stands twice, or a value is not in the option's range.
pub fn parse_words(words: &[String]) -> Option<Asked>
    ensures { MatchOption result (AreRefused (map string_bytes words.now)) (AsksFor (map string_bytes words.now)) }
{
    let mut given = [None; 9];
    let mut place = 0;
    'words: while place < words.len() {
        if words.len() - place < 2 {
            return None;
        }
        given = take(given, words[place].as_str(), words[place + 1].as_str())?;
        place += 2;
    }
    Some(asked_of(given))
}
