// The form in what clap found.
ghost use Rattle.std.specs.Prelude.{◌≡◌, codes, option_and_then};
ghost use Rattle.clap.specs.Words.{first_value, found_of, subcommand_rows_of};
ghost use Rattle.swarm_command.specs.CommandLine.{script_number};
ghost use Rattle.swarm_command.specs.Inside.Clap.{found_form, is_set, made_form, named_form, run_form};

use crate::forms::Form;
use crate::spellings::{USUAL_WORKERS, script_number, workers_number};
use clap::ArgMatches;

fn run_form(found: &ArgMatches<'_>) -> Option<Form>
    ensures { result ≡ run_form (first_value (found_of found.now) (codes "workers")) }
{
    match found.get_str("workers") {
        Some(number) => workers_number(number.as_bytes()).map(Form::Run),
        None => Some(Form::Run(USUAL_WORKERS)),
    }
}

fn is_set(found: &ArgMatches<'_>) -> bool
    ensures { result ≡ is_set (first_value (found_of found.now) (codes "run")) }
{
    match found.get_str("run") {
        Some(value) => value == "true",
        None => false,
    }
}

fn found_number(found: &ArgMatches<'_>) -> Option<u64>
    ensures { result ≡ option_and_then script_number (first_value (found_of found.now) (codes "number")) }
{
    match found.get_str("number") {
        Some(number) => script_number(number),
        None => None,
    }
}

fn made_form(number: Option<u64>, found: &ArgMatches<'_>) -> Option<Form>
    ensures { result ≡ made_form number (first_value (found_of found.now) (codes "run")) }
{
    match number {
        Some(number) if is_set(found) => Some(Form::MakeRun(number)),
        Some(number) => Some(Form::Make(number)),
        None => None,
    }
}

fn named_form(name: &str, found: &ArgMatches<'_>) -> Option<Form>
    ensures { result ≡ named_form name.now (first_value (found_of found.now) (codes "workers"))
        (first_value (found_of found.now) (codes "number")) (first_value (found_of found.now) (codes "run")) }
{
    if name == "run" {
        return run_form(found);
    }
    if name == "replay" {
        return Some(Form::Replay);
    }
    if name == "make" {
        return made_form(found_number(found), found);
    }
    None
}

pub(crate) fn found_form(matches: &ArgMatches<'_>) -> Option<Form>
    ensures { result ≡ found_form (subcommand_rows_of matches.now) }
{
    match matches.subcommand() {
        Some((name, found)) => named_form(name, found),
        None => None,
    }
}
