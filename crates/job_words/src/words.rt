//! The words of a command line.
ghost use Rattle.std.specs.Prelude.{◌≡◌, ◌≤◌, IfOk, OnErr, IfSome, IsSome};
ghost use Rattle.std.specs.Option.{option_map};
ghost use Rattle.job_words.specs.Settings.{row_of};
ghost use Rattle.job_words.specs.Words.{is_script_name, items_of, plain_words, value_for, values_for, script_among, number_for, run_of, words_mean};
ghost use Rattle.job_words.specs.Within.{IsWithin};
ghost use Rattle.job_words.specs.Cutting.{item_view, few_of, few_map, with_one};

use crate::command::{Command, Job};
use crate::few::Few;
use crate::items::{Item, first_item};
use crate::setting::Setting;
use dia_edge::{Name, NoMemory};
use dia_expr::number_spelled;
use std::alloc::Global;

fn is_script_name(name: &[u8]) -> bool
    ensures { result ≡ is_script_name name.now }
{
    match name {
        [] => false,
        [first, ..] => *first != b'-',
    }
}

/// One more than there are.
fn with_one<T: Copy>(first: T, behind: Few<T>) -> Few<T>
    ensures { result ≡ with_one first behind }
{
    match behind {
        Few::None => Few::One(first),
        Few::One(_) | Few::More => Few::More,
    }
}

/// The plain words.
fn plain_among(words: &[Name]) -> Few<&Name>
    ensures { few_map (λ word. word.now) result ≡ few_of (plain_words (items_of words.now)) }
{
    let Some((item, rest)) = first_item(words) else {
        return Few::None;
    };
    let behind = plain_among(rest);
    match item {
        Item::Plain(word) => with_one(word, behind),
        Item::Given { .. } => behind,
    }
}

/// The value that an item gives for the option of this name.
fn value_for<'w>(option: &[u8], item: Item<'w>) -> Option<&'w [u8]>
    ensures { option_map (λ value. value.now) result ≡ value_for option.now (item_view item.entry) }
{
    match item {
        Item::Plain(_) => None,
        Item::Given { name, value } => { if name == option { Some(value) } else { None } }
    }
}

/// The values that the words give for the option of this name.
fn values_among<'w>(option: &[u8], words: &'w [Name]) -> Few<&'w [u8]>
    ensures { few_map (λ value. value.now) result ≡ few_of (values_for option.now (items_of words.now)) }
{
    let Some((item, rest)) = first_item(words) else {
        return Few::None;
    };
    let behind = values_among(option, rest);
    match value_for(option, item) {
        Some(value) => with_one(value, behind),
        None => behind,
    }
}

/// The script's name, where there is exactly one plain word, and it is a script's name.
fn script_in(words: &[Name]) -> Option<&Name>
    ensures { option_map (λ name. name.now) result ≡ script_among (plain_words (items_of words.now)) }
{
    match plain_among(words) {
        Few::One(word) => {
            if is_script_name(word.text().as_bytes()) {
                Some(word)
            } else {
                None
            }
        }
        Few::None | Few::More => None,
    }
}

/// The number that a setting has: its default where no value is given, and None where several are, or one that isn't a number
/// in range.
fn number_in(setting: Setting, words: &[Name]) -> Option<u64>
    ensures number { result ≡ number_for setting (items_of words.now) }
    ensures within { IfSome result (λ n. ((row_of setting).least ≤ n) × (n ≤ (row_of setting).most)) }
{
    let row = setting.row();
    match values_among(row.name, words) {
        Few::None => Some(row.default),
        Few::One(value) => row.within(number_spelled(value)?),
        Few::More => None,
    }
}

/// The run that the words behind `run` ask for.
fn run_meant(alloc: Global, words: &[Name]) -> Result<Option<Command>, NoMemory>
    ensures meaning { IfOk result (λ command. command ≡ run_of (items_of words.now)) }
    ensures some { OnErr result (IsSome (run_of (items_of words.now))) }
    ensures within { IfOk result (λ command. IfSome command IsWithin) }
{
    let Some(script) = script_in(words) else {
        return Ok(None);
    };
    let Some(workers) = number_in(Setting::Workers, words) else {
        return Ok(None);
    };
    let Some(limit) = number_in(Setting::Pool, words) else {
        return Ok(None);
    };
    let Some(block) = number_in(Setting::Block, words) else {
        return Ok(None);
    };
    let Some(schedule) = number_in(Setting::Schedule, words) else {
        return Ok(None);
    };
    Ok(Some(Command::Run(Job {
        script: Name::of(alloc, script.text())?,
        workers: workers as u32,
        limit,
        block: block as u32,
        schedule,
    })))
}

/// The command that words ask for; None where they mean nothing.
///
/// They are `run SCRIPT [--workers V] [--pool V] [--block V] [--schedule V]`, the script and the options in any order, where an
/// option is two words or NAME=V. Memory can run out only where they mean something.
pub fn words_mean(alloc: Global, words: &[Name]) -> Result<Option<Command>, NoMemory>
    ensures meaning { IfOk result (λ command. command ≡ words_mean words.now) }
    ensures some { OnErr result (IsSome (words_mean words.now)) }
    ensures within { IfOk result (λ command. IfSome command IsWithin) }
{
    match words {
        [command, rest @ ..] if command.text() == "run" => run_meant(alloc, rest),
        _ => Ok(None),
    }
}
