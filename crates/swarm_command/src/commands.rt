// The command that clap reads.
ghost use Rattle.std.specs.Prelude.{◌≡◌, IfOk, codes, false};
ghost use Rattle.clap.specs.Words.{app_of, new_app, with_subcommand};
ghost use Rattle.clap.specs.declared.builder.Command.TheViews.{out-Command};
ghost use Rattle.swarm_command.specs.Inside.Clap.{bare, make_app, run_app, swarm_app};

use clap::{Arg, ArgAction, Command};
use std::alloc::{AllocError, Global};

fn run_command<'a>(alloc: Global) -> Result<Command<'a>, AllocError>
    ensures app { IfOk result (λ c. app_of c ≡ run_app) }
    ensures local { IfOk result (λ c. (out-Command c).has_globals ≡ false) }
{
    let workers = Arg::new(alloc, "workers")
        .long("workers")
        .action(ArgAction::Set);
    Command::new(alloc, "run").arg(workers)
}

fn make_command<'a>(alloc: Global) -> Result<Command<'a>, AllocError>
    ensures app { IfOk result (λ c. app_of c ≡ make_app) }
    ensures local { IfOk result (λ c. (out-Command c).has_globals ≡ false) }
{
    let number = Arg::new(alloc, "number")
        .required(true)
        .action(ArgAction::Set);
    let run = Arg::new(alloc, "run")
        .long("run")
        .action(ArgAction::SetTrue);
    Command::new(alloc, "make").arg(number)?.arg(run)
}

// The program with no subcommand yet.
fn bare_command<'a>(alloc: Global) -> Command<'a>
    ensures { app_of result ≡ bare (new_app (codes "swarm")) }
{
    Command::new(alloc, "swarm")
        .no_binary_name(true)
        .disable_help_flag(true)
        .disable_help_subcommand(true)
        .subcommand_required(true)
}

fn with_run<'a>(alloc: Global, command: Command<'a>) -> Result<Command<'a>, AllocError>
    ensures { IfOk result (λ c. app_of c ≡ with_subcommand (app_of command.entry) run_app.top) }
{
    command.subcommand(run_command(alloc)?)
}

fn with_replay<'a>(alloc: Global, command: Command<'a>) -> Result<Command<'a>, AllocError>
    ensures { IfOk result (λ c. app_of c
        ≡ with_subcommand (app_of command.entry) (new_app (codes "replay")).top) }
{
    command.subcommand(Command::new(alloc, "replay"))
}

fn with_make<'a>(alloc: Global, command: Command<'a>) -> Result<Command<'a>, AllocError>
    ensures { IfOk result (λ c. app_of c ≡ with_subcommand (app_of command.entry) make_app.top) }
{
    command.subcommand(make_command(alloc)?)
}

pub(crate) fn swarm_command<'a>(alloc: Global) -> Result<Command<'a>, AllocError>
    ensures { IfOk result (λ c. app_of c ≡ swarm_app) }
{
    let command = with_run(alloc, bare_command(alloc))?;
    let command = with_replay(alloc, command)?;
    with_make(alloc, command)
}
