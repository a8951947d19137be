//! Arguments as the words of a command line.
ghost use Rattle.std.specs.Prelude.{◌≡◌, ◌++◌, ◌∷◌, [], All, IsUtf8, OnOk, IfOk, IfErr};
ghost use Rattle.main_words.specs.Arguments.{arguments, IsReason, IsNoText, AreWords};

use dia_edge::{Name, NoMemory};
use std::alloc::{AllocFailed, Global};

/// Why there are no words.
#[derive(Clone, Copy)]
enum WordsErr {
    /// An argument isn't UTF-8.
    NotUtf8,
    /// There was no memory.
    NoMemory,
}

impl From<NoMemory> for WordsErr {
    ghost use Rattle.std.specs.Prelude.{◌≡◌};
    ghost use Rattle.main_words.specs.declared.words.WordsErr.TheVariants as variants;

    ghost from_gives = { λ _ e. e ≡ variants.NoMemory };

    fn from(_: NoMemory) -> WordsErr {
        WordsErr::NoMemory
    }
}

impl<T: Drop> From<AllocFailed<T>> for WordsErr {
    ghost use Rattle.std.specs.Prelude.{◌≡◌};
    ghost use Rattle.main_words.specs.declared.words.WordsErr.TheVariants as variants;

    ghost from_gives = { λ _ e. e ≡ variants.NoMemory };

    fn from(_: AllocFailed<T>) -> WordsErr {
        WordsErr::NoMemory
    }
}

/// One argument as a word.
fn word_of(alloc: Global, argument: &[u8]) -> Result<Name, WordsErr>
    ensures word { IfOk result (λ word. word ≡ argument.now) }
    ensures text { OnOk result (IsUtf8 argument.now) }
    ensures reason { IfErr result (λ e. IsNoText e argument.now) }
{
    match str::from_utf8(argument) {
        Ok(text) => Ok(Name::of(alloc, text)?),
        Err(_) => Err(WordsErr::NotUtf8),
    }
}

/// Each argument as a word, in order.
fn words_of(alloc: Global, args: &[Vec<u8>]) -> Result<Vec<Name>, WordsErr>
    ensures words { IfOk result (λ words. words.items ≡ arguments args.now) }
    ensures texts { OnOk result (All IsUtf8 (arguments args.now)) }
    ensures reason { IfErr result (λ e. IsReason e (arguments args.now)) }
{
    let mut words = Vec::new(alloc);
    for arg in args {
        words.push(word_of(alloc, arg)?)?;
    }
    Ok(words)
}

/// The words of the command line: each argument, in order; or none where an argument isn't UTF-8, which is a usage
/// error as no words are.
pub fn command_words(alloc: Global, args: &[Vec<u8>]) -> Result<Vec<Name>, NoMemory>
    ensures { IfOk result (λ words. AreWords words.items (arguments args.now)) }
{
    match words_of(alloc, args) {
        Ok(words) => Ok(words),
        Err(WordsErr::NotUtf8) => Ok(Vec::new(alloc)),
        Err(WordsErr::NoMemory) => Err(NoMemory),
    }
}
