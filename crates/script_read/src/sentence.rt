//! The parts of a line.
ghost use Rattle.std.specs.Prelude.{◌≡◌, map};
ghost use Rattle.script_defs.specs.Reading.{sentence_of, is_skipped_words};
ghost use Rattle.script_read.specs.Sentences.{sentence_in, words_in};

/// The parts of a line: the name before `=`, the statement or action word, and the words after it.
#[derive(Clone, Copy)]
pub(crate) struct Sentence<'w, 'a> {
    pub defines: Option<&'a [u8]>,
    pub word: &'a [u8],
    pub args: &'w [&'a [u8]],
}

/// Nothing, or the first of the words begins with `#`.
pub(crate) fn is_skipped(words: &[&[u8]]) -> bool
    ensures { result ≡ is_skipped_words (words_in words.now) }
{
    match words {
        [] => true,
        [[], ..] => true,
        [[first, ..], ..] => *first == b'#',
    }
}

/// The parts of the line with these words.
pub(crate) fn parts_of<'w, 'a>(words: &'w [&'a [u8]]) -> Sentence<'w, 'a>
    ensures { sentence_in result ≡ sentence_of (words_in words.now) }
{
    let nothing: &'a [u8] = b"";
    match words {
        [] => Sentence {
            defines: None,
            word: nothing,
            args: words,
        },
        [name, b"=", rest @ ..] => match rest.split_first() {
            None => Sentence {
                defines: Some(*name),
                word: nothing,
                args: rest,
            },
            Some((word, args)) => Sentence {
                defines: Some(*name),
                word: *word,
                args,
            },
        },
        [word, args @ ..] => Sentence {
            defines: None,
            word: *word,
            args,
        },
    }
}
