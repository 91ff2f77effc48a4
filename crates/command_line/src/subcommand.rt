//! Subcommands as rows of a table, and how clap gets them.
ghost use Rattle.std.specs.Prelude.{◌≡◌, IfOk, false, filter, map};
ghost use Rattle.std.specs.List.{All};
ghost use Rattle.clap.specs.Words.{app_of, rule_of};
ghost use Rattle.clap.specs.declared.builder.command.Command.TheViews.{out-Command as fields_of};
ghost use Rattle.command_line.specs.Grammar.{argument_rule, is_had, subcommand_app, subcommand_apps};

use app_states::Opening;
use clap::{Arg, ArgAction, Command};
use ledger_model::AppKinds;
use std::alloc::{AllocError, Global};

/// How the words of a command line give an argument.
pub(crate) enum Kind {
    /// By `--name VALUE`; this is the value if the words don't give one.
    Value(&'static str),
    /// By `--name VALUE` in a program of the three applications, which chooses one; other programs don't have it.
    Choice(&'static str),
    /// By `--name VALUE`; the value is the program's transaction if the words don't give one.
    FirstTx,
    /// By `--name VALUE`, which may be absent.
    Optional,
    /// By `--name` alone.
    Flag,
    /// By its value alone, which is required.
    Word,
}

/// An argument of a subcommand.
pub(crate) struct Argument {
    pub(crate) name: &'static str,
    pub(crate) kind: Kind,
    pub(crate) help: &'static str,
}

/// A subcommand: what it does, a usage line of `abft` if clap's own lacks something, its arguments in order, the end of its help, and
/// the same for programs with an application of their own, if it differs.
pub(crate) struct Subcommand {
    pub(crate) name: &'static str,
    pub(crate) about: &'static str,
    pub(crate) usage: Option<&'static str>,
    pub(crate) arguments: &'static [Argument],
    pub(crate) after_help: &'static str,
    pub(crate) own_help: Option<&'static str>,
}

impl Argument {
    /// Whether a program that has these kinds of applications has the argument.
    fn is_had(&self, kinds: AppKinds) -> bool
        ensures { result ≡ is_had kinds self.now.kind }
    {
        match (kinds, &self.kind) {
            (AppKinds::OwnAlone, Kind::Choice(_)) => false,
            _ => true,
        }
    }

    /// The argument in clap's form.
    fn clap_arg<'a, A: Opening>(&self, alloc: Global) -> Arg<'a>
        ensures rule { rule_of result ≡ argument_rule A.words self.now }
        ensures local { result.global ≡ false }
    {
        let arg = Arg::new(alloc, self.name).help(self.help);
        match self.kind {
            Kind::Value(default) => arg.long(self.name).default_value(default),
            Kind::Choice(default) => arg.long(self.name).default_value(default),
            Kind::FirstTx => {
                let tx: &'a str = A::first_tx();
                arg.long(self.name).default_value(tx)
            }
            Kind::Optional => arg.long(self.name),
            Kind::Flag => arg.long(self.name).action(ArgAction::SetTrue),
            Kind::Word => arg.required(true),
        }
    }
}

/// The arguments that the program has, in clap's form.
fn clap_args<'a, A: Opening>(
    alloc: Global,
    arguments: &[Argument],
) -> Result<Vec<Arg<'a>>, AllocError>
    ensures rules { IfOk result (λ v. map rule_of v.items
        ≡ map (argument_rule A.words) (filter (λ a. is_had A.words.kinds a.kind) arguments.now)) }
    ensures local { IfOk result (λ v. All (λ a. a.global ≡ false) v.items) }
{
    let mut args = Vec::new(alloc);
    for argument in arguments {
        if argument.is_had(A::kinds()) {
            args.push(argument.clap_arg::<A>(alloc))?;
        }
    }
    Ok(args)
}

/// The command with this usage line, if there is one.
fn with_usage<'a>(command: Command<'a>, usage: Option<&'static str>) -> Command<'a>
    ensures app { app_of result ≡ app_of command.entry }
    ensures local { (fields_of result).has_globals ≡ (fields_of command.entry).has_globals }
{
    match usage {
        Some(usage) => command.override_usage(usage),
        None => command,
    }
}

impl Subcommand {
    /// The usage line of `abft`, if clap's own lacks something. That of any other program is clap's own.
    fn usage_for(&self, kinds: AppKinds) -> Option<&'static str> {
        match kinds {
            AppKinds::Three => self.usage,
            AppKinds::OwnAlone => None,
        }
    }

    /// The end of the subcommand's help.
    fn help_for(&self, kinds: AppKinds) -> &'static str {
        match (kinds, self.own_help) {
            (AppKinds::OwnAlone, Some(help)) => help,
            _ => self.after_help,
        }
    }

    /// The subcommand in clap's form.
    fn clap_command<'a, A: Opening>(&self, alloc: Global) -> Result<Command<'a>, AllocError>
        ensures app { IfOk result (λ c. app_of c ≡ subcommand_app A.words self.now) }
        ensures local { IfOk result (λ c. (fields_of c).has_globals ≡ false) }
    {
        let args = clap_args::<A>(alloc, self.arguments)?;
        let command = Command::new(alloc, self.name)
            .about(self.about)
            .after_help(self.help_for(A::kinds()));
        with_usage(command, self.usage_for(A::kinds())).args(args)
    }
}

/// The subcommands in clap's form.
#[tactic(auto, unfolding(crate::specs::Grammar::subcommand_apps))]
pub(crate) fn clap_commands<'a, A: Opening>(
    alloc: Global,
    subcommands: &[Subcommand],
) -> Result<Vec<Command<'a>>, AllocError>
    ensures apps { IfOk result (λ v. map app_of v.items ≡ subcommand_apps A.words subcommands.now) }
    ensures local { IfOk result (λ v. All (λ c. (fields_of c).has_globals ≡ false) v.items) }
{
    let mut commands = Vec::new(alloc);
    for subcommand in subcommands {
        let command = subcommand.clap_command::<A>(alloc)?;
        commands.push(command)?;
    }
    Ok(commands)
}
