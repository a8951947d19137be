//! The words that begin a statement or an action, and how they are spelled.
ghost use Rattle.std.specs.Prelude.{◌≡◌};
ghost use Rattle.script_defs.specs.Words.{spelled, all_words, word_spelled, selector_name, all_selectors, selector_spelled};

/// A statement word or an action word.
#[derive(Clone, Copy, Debug, PartialEq, Eq)]
pub enum Word {
    /// `x = lines NAME`.
    Lines,
    /// `x = generate N`.
    Generate,
    /// `x = map a E..`.
    Map,
    /// `x = filter a E`.
    Filter,
    /// `x = flatmap a words C` and `x = flatmap a spread C K`.
    FlatMap,
    /// `x = cache a`.
    Cache,
    /// `print a`.
    Print,
    /// `size a`.
    Size,
    /// `sum a C`.
    Sum,
}

const WORDS: [Word; 9] = [
    Word::Lines,
    Word::Generate,
    Word::Map,
    Word::Filter,
    Word::FlatMap,
    Word::Cache,
    Word::Print,
    Word::Size,
    Word::Sum,
];

impl Word {
    /// How the word is spelled.
    pub fn spelled(self) -> &'static [u8]
        ensures { result.now ≡ spelled self }
    {
        match self {
            Word::Lines => b"lines",
            Word::Generate => b"generate",
            Word::Map => b"map",
            Word::Filter => b"filter",
            Word::FlatMap => b"flatmap",
            Word::Cache => b"cache",
            Word::Print => b"print",
            Word::Size => b"size",
            Word::Sum => b"sum",
        }
    }
}

/// The word that is spelled so.
pub fn word_spelled(bytes: &[u8]) -> Option<Word>
    ensures { result ≡ word_spelled bytes.now }
{
    WORDS.iter().copied().find(|word| word.spelled() == bytes)
}

/// What a `flatmap` does, by the word behind its operand.
#[derive(Clone, Copy, Debug, PartialEq, Eq)]
pub enum Selector {
    /// One row for each word of a column.
    Words,
    /// One row for each number below another, added to a column.
    Spread,
}

const SELECTORS: [Selector; 2] = [Selector::Words, Selector::Spread];

impl Selector {
    /// How the selector is spelled.
    pub fn spelled(self) -> &'static [u8]
        ensures { result.now ≡ selector_name self }
    {
        match self {
            Selector::Words => b"words",
            Selector::Spread => b"spread",
        }
    }
}

/// The selector that is spelled so.
pub fn selector_spelled(bytes: &[u8]) -> Option<Selector>
    ensures { result ≡ selector_spelled bytes.now }
{
    SELECTORS
        .iter()
        .copied()
        .find(|selector| selector.spelled() == bytes)
}
