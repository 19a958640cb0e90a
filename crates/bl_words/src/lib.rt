//! The words of the program: what they ask of a store's options. The lines that end a run.
#![tactic(auto)]

mod ending;
mod laws;
mod options;
mod parse;

pub use ending::{print_corrupt, print_differ, print_full};
pub use laws::{
    differ_is_of_an_option, options_are_those_of_a_store, words_are_worked_out, words_ask_for_one,
};
pub use options::option_name;
pub use parse::parse_words;

#[cfg(test)]
mod tests;
