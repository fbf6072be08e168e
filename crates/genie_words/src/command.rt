//! The program's command, as `clap` reads it.
ghost use Rattle.std.specs.Prelude.{◌≡◌, false, IfOk, codes};
ghost use Rattle.clap.specs.Words.{app_of, new_app};
ghost use Rattle.clap.specs.declared.Command.TheViews.{out-Command as fields_of};
ghost use Rattle.genie_words.specs.Command.{genie as genie_app, make as make_app, named as named_app, quiet as quiet_app};

use clap::{Arg, Command};
use std::alloc::{AllocError, Global};

// A subcommand with one file.
fn with_file<'a>(alloc: Global, name: &'a str) -> Result<Command<'a>, AllocError>
    ensures app { IfOk result (λ c. app_of c ≡ named_app name.entry.now) }
    ensures local { IfOk result (λ c. (fields_of c).has_globals ≡ false) }
{
    let file = Arg::new(alloc, "file").required(true);
    let command = Command::new(alloc, name).arg(file)?;
    Ok(command)
}

// The subcommand with a seed and a number of rounds.
fn making<'a>(alloc: Global) -> Result<Command<'a>, AllocError>
    ensures app { IfOk result (λ c. app_of c ≡ make_app) }
    ensures local { IfOk result (λ c. (fields_of c).has_globals ≡ false) }
{
    let seed = Arg::new(alloc, "seed").required(true);
    let rounds = Arg::new(alloc, "rounds").required(true);
    let seeded = Command::new(alloc, "make").arg(seed)?;
    let command = seeded.arg(rounds)?;
    Ok(command)
}

// The command without its subcommands, one of which it needs. It reads no name of its own, and has no help.
fn bare<'a>(alloc: Global) -> Command<'a>
    ensures { app_of result ≡ quiet_app (new_app (codes "genie")) }
{
    Command::new(alloc, "genie")
        .no_binary_name(true)
        .disable_help_flag(true)
        .disable_help_subcommand(true)
        .subcommand_required(true)
}

/// The command with its three subcommands.
pub(crate) fn genie<'a>(alloc: Global) -> Result<Command<'a>, AllocError>
    ensures { IfOk result (λ c. app_of c ≡ genie_app) }
{
    let replay = with_file(alloc, "replay")?;
    let cost = with_file(alloc, "cost")?;
    let make = making(alloc)?;
    let first = bare(alloc).subcommand(replay)?;
    let second = first.subcommand(cost)?;
    let command = second.subcommand(make)?;
    Ok(command)
}
