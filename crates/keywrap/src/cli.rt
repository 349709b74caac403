//! Reads the arguments into a `Command`.

ghost use Rattle.std.specs.Prelude.{◌≡◌, IfErr, IfOk, codes};
ghost use Rattle.key_wrap_core.specs.Forms.{with_value};
ghost use Rattle.keywrap.specs.Arguments.{AreBadValues, AreForms, IsBadValue, IsCommand, IsForm, IsHow, IsInitialValue, IsJob, IsKekNotation, IsOperation, IsTextNotation, RefusesCommand, RefusesDrill, RefusesJob, RefusesRewrap};
ghost use Rattle.keywrap_args.specs.Given.{IsSet};
ghost use Rattle.keywrap.specs.declared.cli.CommandStop.TheVariants as Stops;

use crate::command::{Command, Run};
use crate::table::table;
use key_lines::{RunOptions, TextNotation};
use key_wrap_core::{AgreedForm, Form, InitialValue, RewrapForms};
use keywrap_args::{Args, Subcommand, asks_for_table, parse};
use keywrap_cli::{
    Conversion, Direction, How, IvFault, Keks, Notation, Operation, ProgramFault, What,
    line_notation, parse_iv,
};
use std::alloc::Global;

/// Why no command is run.
#[derive(Drop)]
pub enum CommandStop {
    /// The help or a message is printed instead.
    Args(keywrap_args::ParseStop),
    /// An initial value was refused.
    Fault(ProgramFault),
}

impl From<keywrap_args::ParseStop> for CommandStop {
    ghost from_gives = { λ args stop. stop ≡ Stops.Args args };

    fn from(stop: keywrap_args::ParseStop) -> CommandStop {
        CommandStop::Args(stop)
    }
}

impl From<ProgramFault> for CommandStop {
    ghost from_gives = { λ fault stop. stop ≡ Stops.Fault fault };

    fn from(fault: ProgramFault) -> CommandStop {
        CommandStop::Fault(fault)
    }
}

/// Reads the arguments. The first one is the name of the program.
///
/// The first of these stops is returned: the help, the version or arguments that clap refuses, `-`
/// as a KEK file, `--iv`, `--new-iv`. The table of options is printed as the help is.
pub fn read_command<'a>(alloc: Global, args: &'a [String]) -> Result<Command<'a>, CommandStop> {
    if asks_for_table(args) {
        return Err(CommandStop::Args(table(alloc)?));
    }
    command(&parse(alloc, args)?)
}

/// Returns the command for arguments that clap parsed.
pub fn command<'a>(args: &Args<'a>) -> Result<Command<'a>, CommandStop>
    ensures command { IfOk result (λ command. IsCommand args.now command) }
    ensures refused { IfErr result (λ stop. RefusesCommand args.now args.now.subcommand stop) }
{
    let operation = match args.subcommand {
        Subcommand::Wrap | Subcommand::Unwrap | Subcommand::Check => job(args)?,
        Subcommand::Rewrap => rewrap(args)?,
        Subcommand::Drill => return drill(args),
        Subcommand::Vectors => return Ok(Command::Vectors),
    };
    Ok(Command::Run(Run {
        operation,
        how: how(args),
        input: args.file("input"),
        output: args.file("output"),
        quiet: args.has("quiet"),
        verbose: args.has("verbose"),
    }))
}

fn job<'a>(args: &Args<'a>) -> Result<Operation<&'a str>, CommandStop>
    requires { IsJob args.now.subcommand }
    ensures operation { IfOk result (λ operation. IsOperation args.now operation) }
    ensures refused { IfErr result (λ stop. RefusesJob args.now stop) }
{
    let kek = args.kek_file("kek")?;
    let iv = parse_iv_option(args, "iv").map_err(ProgramFault::Iv)?;
    let form = agreed_form(form(args, "padded"), iv);
    let what = match args.subcommand {
        Subcommand::Wrap => What::Convert(Conversion::Wrap(form)),
        Subcommand::Unwrap if args.has("any-form") => What::Convert(Conversion::UnwrapAny(iv)),
        Subcommand::Unwrap => What::Convert(Conversion::Unwrap(form)),
        Subcommand::Check | Subcommand::Rewrap | Subcommand::Drill | Subcommand::Vectors =>
            What::Check(iv),
    };
    let keks = Keks {
        notation: kek_notation(args),
        kek,
        new_kek: None,
    };
    Ok(Operation { what, keks })
}

fn rewrap<'a>(args: &Args<'a>) -> Result<Operation<&'a str>, CommandStop>
    requires { args.now.subcommand ≡ Subcommand.Rewrap }
    ensures operation { IfOk result (λ operation. IsOperation args.now operation) }
    ensures refused { IfErr result (λ stop. RefusesRewrap args.now stop) }
{
    let kek = args.kek_file("kek")?;
    let new_kek = args.kek_file("new-kek")?;
    let what = What::Rewrap {
        forms: rewrap_forms(args)?,
        pass_new: args.has("pass-new"),
    };
    let keks = Keks {
        notation: kek_notation(args),
        kek,
        new_kek: Some(new_kek),
    };
    Ok(Operation { what, keks })
}

// Clap refuses `--keep-form` with the arguments for one of the forms.
fn rewrap_forms(args: &Args<'_>) -> Result<RewrapForms, ProgramFault>
    ensures forms { IfOk result (λ forms. AreForms args.now forms) }
    ensures refused { IfErr result (λ fault. (¬ IsSet args.now (codes "keep-form"))
        × AreBadValues args.now fault) }
{
    if args.has("keep-form") {
        return Ok(RewrapForms::Kept);
    }
    let iv = parse_iv_option(args, "iv").map_err(ProgramFault::Iv)?;
    let new_iv = parse_iv_option(args, "new-iv").map_err(ProgramFault::NewIv)?;
    Ok(RewrapForms::Changed {
        old: agreed_form(form(args, "padded"), iv),
        new: agreed_form(form(args, "new-padded"), new_iv),
    })
}

fn drill<'a>(args: &Args<'a>) -> Result<Command<'a>, CommandStop>
    requires { args.now.subcommand ≡ Subcommand.Drill }
    ensures command { IfOk result (λ command. IsCommand args.now command) }
    ensures refused { IfErr result (λ stop. RefusesDrill args.now stop) }
{
    let direction = if args.has("unwrap") {
        Direction::Unwrap
    } else {
        Direction::Wrap
    };
    Ok(Command::Drill {
        form: form(args, "padded"),
        direction,
        hex: args.required("hex")?,
    })
}

fn form(args: &Args<'_>, padded: &str) -> Form
    ensures { IsForm args.now padded.now result }
{
    if args.has(padded) {
        Form::Padded
    } else {
        Form::Plain
    }
}

// Clap refuses two of these flags together.
fn text_notation(args: &Args<'_>) -> TextNotation
    ensures { IsTextNotation args.now result }
{
    if args.has("base64") {
        TextNotation::Base64
    } else if args.has("base64url") {
        TextNotation::Base64Url
    } else {
        TextNotation::Hex
    }
}

// Clap refuses both flags together. A KEK is only read, and either alphabet of base64 is read.
fn kek_notation(args: &Args<'_>) -> Notation
    ensures { IsKekNotation args.now result }
{
    if args.has("raw-kek") {
        Notation::Raw
    } else if args.has("base64-kek") {
        Notation::Base64
    } else {
        Notation::Hex
    }
}

// Clap refuses `--raw` with `--lines` and with another notation, and `--keep-going` without `--lines`.
fn how(args: &Args<'_>) -> How
    ensures { IsHow args.now result }
{
    let (notation, keep_going) = (text_notation(args), args.has("keep-going"));
    if args.has("lines") {
        How::Lines(RunOptions {
            notation,
            keep_going,
        })
    } else if args.has("raw") {
        How::Whole(Notation::Raw)
    } else {
        How::Whole(line_notation(notation))
    }
}

// Returns the form with its initial value.
fn agreed_form(form: Form, iv: InitialValue) -> AgreedForm
    ensures { result ≡ with_value form iv }
{
    match form {
        Form::Plain => AgreedForm::Plain(iv),
        Form::Padded => AgreedForm::Padded,
    }
}

fn parse_iv_option(args: &Args<'_>, option: &str) -> Result<InitialValue, IvFault>
    ensures value { IfOk result (λ iv. IsInitialValue args.now option.now iv) }
    ensures refused { IfErr result (λ fault. IsBadValue args.now option.now fault) }
{
    match args.value(option) {
        Some(digits) => parse_iv(digits),
        None => Ok(InitialValue::default()),
    }
}
