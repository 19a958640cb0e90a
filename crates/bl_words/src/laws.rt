//! Laws of the options and of words.

ghost use Rattle.bl_words.specs.Laws.{AreTheOptions, AreWorkedOut, AskForOne, DifferIsOfAnOption};

/// Words ask for one thing at most.
pub fn words_ask_for_one()
    ensures { AskForOne }
{}

/// The options that words may name are those of a store: the ranges, the values of a new store, and the order are the same.
pub fn options_are_those_of_a_store()
    ensures { AreTheOptions }
{}

/// What is told to differ is an option that the words name.
pub fn differ_is_of_an_option()
    ensures { DifferIsOfAnOption }
{}

/// Worked rows.
pub fn words_are_worked_out()
    ensures { AreWorkedOut }
{}
