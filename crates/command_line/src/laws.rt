//! The law of command lines.

ghost use Rattle.command_line.specs.Laws.{WordsAskForOne};

/// Words ask for at most one value of the options.
pub fn words_ask_for_one()
    ensures { WordsAskForOne }
{}
