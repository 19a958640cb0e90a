//! The options by their numbers.

ghost use Rattle.std.specs.Prelude.{◌≡◌, ◌≢◌, ℕ, MatchOption};
ghost use Rattle.bl_words.specs.Options.{IsOption, name_of, row};

// What an option is called, and its range.
#[derive(Clone, Copy)]
pub(crate) struct Row {
    pub name: &'static str,
    pub least: u64,
    pub greatest: u64,
}

/// The row of the option of this number, from 1 to 9; an empty one for any other number.
pub(crate) fn row_of(option: u8) -> Row
    ensures name { result.name.now ≡ name_of option }
    ensures least { result.least ≡ (row option).least }
    ensures greatest { result.greatest ≡ (row option).greatest }
{
    let (name, least, greatest) = match option {
        1 => ("min-blob-size", 0, 1 << 32),
        2 => ("blob-file-size", 1, 1 << 40),
        3 => ("write-buffer", 1, 1 << 40),
        4 => ("table-size", 1, 1 << 40),
        5 => ("level0-trigger", 1, 1000),
        6 => ("level-base", 1, 1 << 40),
        7 => ("level-factor", 2, 20),
        8 => ("age-cutoff", 0, 100),
        9 => ("force-threshold", 1, 100),
        _ => ("", 0, 0),
    };
    Row {
        name,
        least,
        greatest,
    }
}

/// What the option of this number, from 1 to 9, is called, without the dashes of its word; nothing for any other number.
pub fn option_name(option: u8) -> &'static str
    ensures { result.now ≡ name_of option }
{
    row_of(option).name
}

/// The number of the option that is called so.
pub(crate) fn option_named(name: &str) -> Option<u8>
    ensures { MatchOption result ((option : ℕ) → IsOption option → name.now ≢ name_of option)
        (λ option. IsOption option × (name.now ≡ name_of option)) }
{
    for option in 1..10 {
        if name == option_name(option) {
            return Some(option);
        }
    }
    None
}
