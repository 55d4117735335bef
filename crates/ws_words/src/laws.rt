//! A law of the definitions. The function does nothing.

ghost use Rattle.ws_words.specs.Laws.{WordsAreSpelled};

/// What words say is what the grammar of words reads in them, and nothing else.
pub fn words_say_what_is_spelled()
    ensures { WordsAreSpelled }
{}
