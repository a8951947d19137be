//! The laws.
ghost use Rattle.piece_laws.specs.Lines.{LinesAreBytes, NoOtherLines};
ghost use Rattle.piece_laws.specs.Words.{WordsAreRuns, TextWordsAreRuns, NoOtherWords, NoOtherTextWords};

/// The lines of bytes, with an LF between each two lines and one at the end if the bytes end in LF, are the bytes. No line
/// has an LF, and there is no line exactly where there is no byte.
pub fn lines_are_bytes()
    ensures { LinesAreBytes }
{}

/// The words of a script's line are not empty and have no space. The line is these words with spaces around them, at least
/// one between two words.
pub fn words_are_runs()
    ensures { WordsAreRuns }
{}

/// The words of a text are not empty and have no blank. The text is these words with blanks around them, at least one
/// between two words.
pub fn text_words_are_runs()
    ensures { TextWordsAreRuns }
{}

/// What `lines_are_bytes` says of the lines of bytes holds of no other lists of bytes.
pub fn no_other_lines()
    ensures { NoOtherLines }
{}

/// What `words_are_runs` says of the words of a script's line holds of no other lists of bytes.
pub fn no_other_words()
    ensures { NoOtherWords }
{}

/// What `text_words_are_runs` says of the words of a text holds of no other lists of bytes.
pub fn no_other_text_words()
    ensures { NoOtherTextWords }
{}
