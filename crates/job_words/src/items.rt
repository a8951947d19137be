//! The words behind `run`, cut into items.
ghost use Rattle.std.specs.Prelude.{◌≡◌, ◌==◌, ◌<◌, ◌∷◌, [], None, Some, IfSome, length, position};
ghost use Rattle.job_words.specs.Words.{item_cut, item_of, items_of};
ghost use Rattle.job_words.specs.Cutting.{item_view};

use crate::setting::is_option;
use dia_edge::Name;

/// A plain word, or an option with its value.
#[derive(Clone, Copy)]
pub enum Item<'w> {
    /// A plain word.
    Plain(&'w Name),
    /// An option.
    Given {
        /// Its name.
        name: &'w [u8],
        /// Its value.
        value: &'w [u8],
    },
}

/// Where the first `=` stands.
fn equals_in(word: &[u8]) -> Option<usize>
    ensures place { result ≡ position (λ b. b == 61) word.now }
    ensures within { IfSome result (λ at. at < length word.now) }
{
    word.iter().position(|b| *b == b'=')
}

/// The item that a word is with a `=` at this place.
fn item_at(word: &Name, at: usize) -> Item<'_>
    requires { at < length word.now }
    ensures { item_view result ≡ item_cut word.now (Some at) }
{
    let (name, behind) = word.text().as_bytes().split_at(at);
    if is_option(name) {
        Item::Given {
            name,
            value: &behind[1..],
        }
    } else {
        Item::Plain(word)
    }
}

/// The item that a word is where it isn't the name of an option with a value behind it.
fn item_of(word: &Name) -> Item<'_>
    ensures { item_view result ≡ item_of word.now }
{
    match equals_in(word.text().as_bytes()) {
        Some(at) => item_at(word, at),
        None => Item::Plain(word),
    }
}

/// The first item of words, and the words behind it; None where there are no words.
pub fn first_item(words: &[Name]) -> Option<(Item<'_>, &[Name])>
    ensures none { result ≡ None → words.now ≡ [] }
    ensures some { IfSome result (λ r. items_of words.now ≡ item_view r.0 ∷ items_of r.1.now) }
    ensures shorter { IfSome result (λ r. length r.1.now < length words.now) }
{
    match words {
        [] => None,
        [word] => Some((item_of(word), &[])),
        [word, value, rest @ ..] => {
            let name = word.text().as_bytes();
            if is_option(name) {
                let value = value.text().as_bytes();
                Some((Item::Given { name, value }, rest))
            } else {
                Some((item_of(word), &words[1..]))
            }
        }
    }
}
