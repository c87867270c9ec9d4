//! Commands, and the kinds of arguments that they have.

ghost use Rattle.std.specs.Prelude.{◌≡◌, false, map, IfOk};
ghost use Rattle.clap.specs.Words.{rule_of};
ghost use Rattle.sporc_words.specs.Arguments.{grammar_of, named, rule_for, with_all, with_argument};

use clap::{Arg, ArgAction, Command};
use sporc_base::Memory;
use std::alloc::Global;

/// A kind of arguments.
#[derive(Clone, Copy)]
pub enum Kind {
    /// A word in its place, as `NAME`.
    Positional,
    /// Any number of words after the others, as `NAME ..`.
    Repeated,
    /// A value that may be left out, as `--name N`.
    Optional,
    /// A value that must be there, as `--name N`.
    Needed,
}

/// The command of this name, with these arguments.
pub fn command_with<'a>(
    alloc: Global,
    name: &'a str,
    arguments: &[(Kind, &'static str)],
) -> Result<Command<'a>, Memory>
    ensures ok { IfOk result (λ c. grammar_of c
        ≡ with_all (named name.entry.now) (map (λ a. rule_for a.0 a.1.now) arguments.entry.now)) }
{
    let mut command = start(alloc, name);
    for argument in arguments {
        command = with_argument(alloc, command, argument.0, argument.1)?;
    }
    Ok(command)
}

// The command without arguments.
#[tactic(auto, unfolding(crate::specs::Arguments::grammar_of, crate::specs::Arguments::named))]
fn start<'a>(alloc: Global, name: &'a str) -> Command<'a>
    ensures value { grammar_of result ≡ named name.entry.now }
{
    Command::new(alloc, name)
}

// The command with one more.
fn with_argument<'a>(
    alloc: Global,
    command: Command<'a>,
    kind: Kind,
    id: &'a str,
) -> Result<Command<'a>, Memory>
    ensures ok { IfOk result (λ c. grammar_of c
        ≡ with_argument (grammar_of command.entry) (rule_for kind id.entry.now)) }
{
    let command = command.arg(argument(alloc, kind, id))?;
    Ok(command)
}

#[tactic(auto, unfolding(crate::specs::Arguments::needed, crate::specs::Arguments::optional, crate::specs::Arguments::positional, crate::specs::Arguments::repeated))]
fn argument<'a>(alloc: Global, kind: Kind, id: &'a str) -> Arg<'a>
    ensures rule { rule_of result ≡ rule_for kind id.entry.now }
    ensures local { result.global ≡ false }
{
    let argument = Arg::new(alloc, id);
    match kind {
        Kind::Positional => argument.required(true).action(ArgAction::Set),
        Kind::Repeated => argument.action(ArgAction::Append),
        Kind::Optional => argument.long(id).action(ArgAction::Set),
        Kind::Needed => argument.long(id).required(true).action(ArgAction::Set),
    }
}
