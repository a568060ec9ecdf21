// The fixed command, built for `clap`.
ghost use Rattle.std.specs.Prelude.{◌≡◌, false, IfOk};
ghost use Rattle.clap.specs.Words.{app_of, new_app, rule_of, with_rule, with_subcommand};
ghost use Rattle.clap.specs.declared.builder.Command.TheViews.{out-Command};
ghost use Rattle.command_line.specs.FixedCommand.{mulver};
ghost use Rattle.command_line.specs.Reading.{IsCommand, rule_for, with_args, with_subcommands};

use clap::{Arg, ArgAction, Command};
use std::alloc::{AllocError, Global};

// How an argument is given.
#[derive(Clone, Copy)]
enum Form {
    // A required word in its place.
    Word,
    // An option of one text.
    Choice,
    // An option of one text that is required.
    Needed,
    // An option without a text.
    Flag,
}

// The subcommands, each with its arguments.
const SUBCOMMANDS: [(&str, &[(Form, &str)]); 8] = [
    (
        "check",
        &[
            (Form::Word, "graph"),
            (Form::Word, "clauses"),
            (Form::Word, "algebra"),
            (Form::Choice, "inputs"),
            (Form::Choice, "operands"),
            (Form::Flag, "add"),
            (Form::Choice, "widths"),
        ],
    ),
    (
        "verify",
        &[
            (Form::Word, "graph"),
            (Form::Needed, "clauses"),
            (Form::Needed, "algebra"),
            (Form::Choice, "inputs"),
            (Form::Choice, "budget"),
            (Form::Choice, "conflicts"),
            (Form::Choice, "format"),
            (Form::Choice, "operands"),
            (Form::Flag, "add"),
            (Form::Choice, "widths"),
        ],
    ),
    (
        "eval",
        &[
            (Form::Word, "graph"),
            (Form::Word, "a"),
            (Form::Word, "b"),
            (Form::Choice, "inputs"),
            (Form::Choice, "addend"),
            (Form::Choice, "widths"),
        ],
    ),
    (
        "make",
        &[
            (Form::Word, "kind"),
            (Form::Word, "bits"),
            (Form::Word, "adder"),
            (Form::Word, "out"),
            (Form::Flag, "add"),
        ],
    ),
    ("trial", &[(Form::Word, "number")]),
    (
        "same",
        &[
            (Form::Word, "graph"),
            (Form::Word, "other"),
            (Form::Word, "clauses"),
            (Form::Choice, "conflicts"),
        ],
    ),
    (
        "check-same",
        &[
            (Form::Word, "graph"),
            (Form::Word, "other"),
            (Form::Word, "clauses"),
        ],
    ),
    (
        "trim",
        &[
            (Form::Word, "graph"),
            (Form::Word, "clauses"),
            (Form::Word, "algebra"),
            (Form::Word, "to-clauses"),
            (Form::Word, "to-algebra"),
            (Form::Choice, "inputs"),
            (Form::Choice, "operands"),
            (Form::Flag, "add"),
            (Form::Choice, "widths"),
        ],
    ),
];

/// The whole command.
pub(crate) fn mulver<'a>(alloc: Global) -> Result<Command<'a>, AllocError>
    ensures { IfOk result (IsCommand mulver) }
{
    let command = Command::new(alloc, "mulver").subcommand_required(true);
    with_subcommands(alloc, command, &SUBCOMMANDS)
}

fn with_subcommands<'a>(
    alloc: Global,
    command: Command<'a>,
    subcommands: &[(&'a str, &[(Form, &'a str)])],
) -> Result<Command<'a>, AllocError>
    requires { (out-Command command).has_globals ≡ false }
    ensures { IfOk result (IsCommand (with_subcommands subcommands.now (app_of command.entry))) }
{
    let mut command = command;
    for sub in subcommands {
        command = with_subcommand(alloc, command, sub.0, sub.1)?;
    }
    Ok(command)
}

fn with_subcommand<'a>(
    alloc: Global,
    command: Command<'a>,
    name: &'a str,
    args: &[(Form, &'a str)],
) -> Result<Command<'a>, AllocError>
    requires { (out-Command command).has_globals ≡ false }
    ensures { IfOk result (IsCommand
        (with_subcommand (app_of command.entry) (with_args args.now (new_app name.entry.now)).top)) }
{
    command.subcommand(with_args(alloc, Command::new(alloc, name), args)?)
}

fn with_args<'a>(
    alloc: Global,
    command: Command<'a>,
    args: &[(Form, &'a str)],
) -> Result<Command<'a>, AllocError>
    requires { (out-Command command).has_globals ≡ false }
    ensures { IfOk result (IsCommand (with_args args.now (app_of command.entry))) }
{
    let mut command = command;
    for arg in args {
        command = with_arg(alloc, command, arg.0, arg.1)?;
    }
    Ok(command)
}

fn with_arg<'a>(
    alloc: Global,
    command: Command<'a>,
    form: Form,
    id: &'a str,
) -> Result<Command<'a>, AllocError>
    requires { (out-Command command).has_globals ≡ false }
    ensures { IfOk result (IsCommand (with_rule (app_of command.entry) (rule_for form id.entry.now))) }
{
    command.arg(arg(alloc, form, id))
}

fn arg<'a>(alloc: Global, form: Form, id: &'a str) -> Arg<'a>
    ensures rule { rule_of result ≡ rule_for form id.entry.now }
    ensures local { result.global ≡ false }
{
    let arg = Arg::new(alloc, id).action(ArgAction::Set);
    match form {
        Form::Word => arg.required(true),
        Form::Choice => arg.long(id),
        Form::Needed => arg.long(id).required(true),
        Form::Flag => arg.long(id).action(ArgAction::SetTrue),
    }
}
