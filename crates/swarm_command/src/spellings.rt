// Whether words are a spelling of a form, told without memory.
ghost use Rattle.std.specs.Prelude.{◌≡◌, string_bytes, map, ◌&&◌, ◌||◌, is_some, Some};
ghost use Rattle.std.specs.Option.{option_eq};
ghost use Rattle.std.specs.Str.{bytes_eq};
ghost use Rattle.swarm_objects.specs.Same.{same_number};
ghost use Rattle.swarm_command.specs.CommandLine.{form_of, is_replay, joined_workers, made_number, number_beside_run, run_number, run_workers, script_number, workers_number};
ghost use Rattle.swarm_command.specs.Inside.Clap.{spells};

use crate::forms::Form;
use script_fields::number_of;
use script_maker::MOST_NUMBER;

/// The most workers.
const MOST_WORKERS: u64 = 16;

/// How many there are where no number is given.
pub(crate) const USUAL_WORKERS: u32 = 4;

fn is_word(word: &String, text: &str) -> bool
    ensures { result ≡ bytes_eq (string_bytes word.now) text.now }
{
    word.as_str() == text
}

fn are_words(first: bool, second: bool) -> bool
    ensures { result ≡ (first && second) }
{
    first && second
}

/// A number of workers, as it is printed.
pub(crate) fn workers_number(word: &[u8]) -> Option<u32>
    ensures { result ≡ workers_number word.now }
{
    match number_of(word) {
        Some(number) if number <= MOST_WORKERS => Some(number as u32),
        _ => None,
    }
}

fn joined_workers(option: &String) -> Option<u32>
    ensures { result ≡ joined_workers (string_bytes option.now) }
{
    match option.as_bytes().strip_prefix(b"--workers=") {
        Some(number) => workers_number(number),
        None => None,
    }
}

fn run_workers(words: &[String]) -> Option<u32>
    ensures { result ≡ run_workers (map string_bytes words.now) }
{
    match words {
        [run] if is_word(run, "run") => Some(USUAL_WORKERS),
        [run, option] if is_word(run, "run") => joined_workers(option),
        [run, option, number] if are_words(is_word(run, "run"), is_word(option, "--workers")) => {
            workers_number(number.as_bytes())
        }
        _ => None,
    }
}

fn is_replay(words: &[String]) -> bool
    ensures { result ≡ is_replay (map string_bytes words.now) }
{
    match words {
        [replay] => is_word(replay, "replay"),
        _ => false,
    }
}

/// The number of a script, as it is printed.
pub(crate) fn script_number(word: &str) -> Option<u64>
    ensures { result ≡ script_number word.now }
{
    match number_of(word.as_bytes()) {
        Some(number) if number <= MOST_NUMBER => Some(number),
        _ => None,
    }
}

fn number_beside_run(first: &String, second: &String) -> Option<u64>
    ensures { result ≡ number_beside_run (string_bytes first.now) (string_bytes second.now) }
{
    if is_word(second, "--run") {
        return script_number(first.as_str());
    }
    if is_word(first, "--run") {
        return script_number(second.as_str());
    }
    None
}

fn made_number(words: &[String]) -> Option<u64>
    ensures { result ≡ made_number (map string_bytes words.now) }
{
    match words {
        [make, number] if is_word(make, "make") => script_number(number.as_str()),
        _ => None,
    }
}

fn run_number(words: &[String]) -> Option<u64>
    ensures { result ≡ run_number (map string_bytes words.now) }
{
    match words {
        [make, first, second] if is_word(make, "make") => number_beside_run(first, second),
        _ => None,
    }
}

fn is_number(found: Option<u64>, number: u64) -> bool
    ensures { result ≡ option_eq same_number found (Some number) }
{
    match found {
        Some(n) => n == number,
        None => false,
    }
}

fn are_workers(found: Option<u32>, workers: u32) -> bool
    ensures { result ≡ option_eq same_number found (Some workers) }
{
    match found {
        Some(n) => n == workers,
        None => false,
    }
}

pub(crate) fn spells(form: Form, words: &[String]) -> bool
    ensures { result ≡ spells form (map string_bytes words.now) }
{
    match form {
        Form::Run(workers) => are_workers(run_workers(words), workers),
        Form::Replay => is_replay(words),
        Form::Make(number) => is_number(made_number(words), number),
        Form::MakeRun(number) => is_number(run_number(words), number),
    }
}

fn is_any(first: bool, second: bool, third: bool, fourth: bool) -> bool
    ensures { result ≡ (first || (second || (third || fourth))) }
{
    first || second || third || fourth
}

/// Whether words are a spelling of any form.
pub(crate) fn asks(words: &[String]) -> bool
    ensures { result ≡ is_some (form_of (map string_bytes words.now)) }
{
    is_any(
        run_workers(words).is_some(),
        is_replay(words),
        made_number(words).is_some(),
        run_number(words).is_some(),
    )
}
