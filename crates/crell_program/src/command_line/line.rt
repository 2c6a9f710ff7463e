//! What the library is told of the command line.
ghost use Rattle.std.specs.Prelude.{◌≡◌, IfOk, false, true};
ghost use Rattle.clap.specs.Words.{app_of, new_app, rule_of, with_rule, with_subcommand};
ghost use Rattle.crell_program.specs.CommandLine.Line as line;

use clap::{Arg, ArgAction, Command};
use std::alloc::{AllocError, Global};

const STATUSES: &str = "\
Exit status:
  0   valid, or printed whole
  1   refused: the place and the reason are printed
  2   the words are no command's
  3   a text spells no module: the place and what is wrong there are printed
  4   a module isn't well-formed: the place and what is wrong there are printed
  5   the hints aren't of their form: the place is printed
  6   a file can't be opened or read
  7   standard output or standard error can't be written to
  8   memory was refused
  9   a limit is passed: 16 MiB a module, 64 MiB the hints, 16 MiB a name or an expression in them,
      1048576 lines a function, 65536 facts at a place, 64 types or constants in one another,
      2147483648 bytes of memory at once
  10  there is no such file";

/// The commands, one of which must be named.
pub(crate) fn command_line<'a>(alloc: Global) -> Result<Command<'a>, AllocError>
    ensures { IfOk result (λ c. app_of c ≡ line.command_line) }
{
    let program = program(alloc)?;
    let with_check = with_command(program, check_command(alloc)?)?;
    let with_defs = with_command(with_check, defs_command(alloc)?)?;
    with_command(with_defs, fmt_command(alloc)?)
}

/// The program itself, under one name wherever it lies.
fn program<'a>(alloc: Global) -> Result<Command<'a>, AllocError>
    ensures { IfOk result (λ c. app_of c ≡ line.program) }
{
    let command = Command::new(alloc, "crell").bin_name("crell")?;
    Ok(
        command
            .version("0.1.0")
            .about("Checks optimisations of textual LLVM IR, and prints modules")
            .after_help(STATUSES)
            .subcommand_required(true)
            .arg_required_else_help(true),
    )
}

fn check_command<'a>(alloc: Global) -> Result<Command<'a>, AllocError>
    ensures { IfOk result (λ c. app_of c ≡ line.check) }
{
    let command = named(
        alloc,
        "check",
        "Says whether the module in TGT refines the one in SRC, by the hints in HINTS",
    );
    let with_source = with_file(
        alloc,
        command,
        "SRC",
        "The module as it was, textual LLVM IR",
    )?;
    let with_target = with_file(alloc, with_source, "TGT", "The module that it became")?;
    with_file(alloc, with_target, "HINTS", "Why that is right, JSON")
}

fn defs_command<'a>(alloc: Global) -> Result<Command<'a>, AllocError>
    ensures { IfOk result (λ c. app_of c ≡ line.defs) }
{
    let command = named(
        alloc,
        "defs",
        "Prints for each block the registers that are defined on every path to its start, or that no path leads there",
    );
    with_file(alloc, command, "FILE", "The module, textual LLVM IR")
}

fn fmt_command<'a>(alloc: Global) -> Result<Command<'a>, AllocError>
    ensures { IfOk result (λ c. app_of c ≡ line.fmt) }
{
    let command = named(alloc, "fmt", "Prints the module as text");
    let with_file = with_file(alloc, command, "FILE", "The module, textual LLVM IR")?;
    with_flag(
        alloc,
        with_file,
        "names",
        "Names the values and blocks that have numbers, as %v.5 for %5",
    )
}

fn named<'a>(alloc: Global, name: &'a str, about: &'a str) -> Command<'a>
    ensures { app_of result ≡ new_app name.entry.now }
{
    Command::new(alloc, name).about(about)
}

/// With a file that must be named.
fn with_file<'a>(
    alloc: Global,
    command: Command<'a>,
    name: &'a str,
    help: &'a str,
) -> Result<Command<'a>, AllocError>
    ensures { IfOk result (λ c. app_of c ≡ with_rule (app_of command.entry) (line.file name.entry.now)) }
{
    let file = Arg::new(alloc, name).required(true).help(help);
    command.arg(file)
}

/// With a flag.
fn with_flag<'a>(
    alloc: Global,
    command: Command<'a>,
    name: &'a str,
    help: &'a str,
) -> Result<Command<'a>, AllocError>
    ensures { IfOk result (λ c. app_of c ≡ with_rule (app_of command.entry) (line.flag name.entry.now)) }
{
    let flag = Arg::new(alloc, name)
        .long(name)
        .action(ArgAction::SetTrue)
        .help(help);
    command.arg(flag)
}

fn with_command<'a>(line: Command<'a>, command: Command<'a>) -> Result<Command<'a>, AllocError>
    requires { (app_of command).top.is_plain ≡ true }
    ensures { IfOk result (λ c. app_of c ≡ with_subcommand (app_of line.entry) (app_of command.entry).top) }
{
    line.subcommand(command)
}
