//! The subcommands and their arguments as lines of JSON. The completions, the manual page's synopsis
//! and the tests are made from them.

use crate::options::{self, Argument, Users, Value};
use crate::subcommands::{Definition, definitions};
use std::fmt;

/// The subcommands and their arguments in the order of the help, each as a line of JSON.
#[derive(Clone, Copy)]
pub struct Table;

impl fmt::Display for Table {
    fn fmt<W: fmt::Write>(&self, f: &mut fmt::Formatter<W>) -> fmt::Result {
        write_subcommands(f)?;
        write_arguments(f)
    }
}

/// Returns whether the arguments ask for the table. The first one is the name of the program.
pub fn asks_for_table(args: &[String]) -> bool {
    match args {
        [_, subcommand] => subcommand.as_str() == "options",
        _ => false,
    }
}

fn write_subcommands<W: fmt::Write>(f: &mut fmt::Formatter<W>) -> fmt::Result {
    for subcommand in definitions() {
        write_subcommand(f, subcommand)?;
    }
    Ok(())
}

fn write_subcommand<W: fmt::Write>(
    f: &mut fmt::Formatter<W>,
    subcommand: &Definition<'_>,
) -> fmt::Result {
    let Definition { name, about, .. } = *subcommand;
    write!(
        f,
        "{{\"subcommand\": \"{name}\", \"about\": \"{about}\"}}\n"
    )
}

fn write_arguments<W: fmt::Write>(f: &mut fmt::Formatter<W>) -> fmt::Result {
    for argument in options::arguments() {
        write_argument(f, argument)?;
    }
    Ok(())
}

fn write_argument<W: fmt::Write>(
    f: &mut fmt::Formatter<W>,
    argument: &Argument<'_>,
) -> fmt::Result {
    let Argument {
        users,
        id,
        help,
        rules,
    } = *argument;
    write!(f, "{{\"argument\": \"{id}\", \"about\": \"{help}\", ")?;
    write_value(f, rules.value)?;
    f.write_str("\"conflicts\": [")?;
    write_names(f, rules.conflicts)?;
    f.write_str("], \"needs\": [")?;
    write_names(f, rules.needs)?;
    f.write_str("], \"subcommands\": [")?;
    write_users(f, users)?;
    f.write_str("]}\n")
}

fn write_value<W: fmt::Write>(f: &mut fmt::Formatter<W>, value: Value) -> fmt::Result {
    match value.name() {
        Some(name) => write!(f, "\"value\": \"{name}\", ")?,
        None => f.write_str("\"value\": null, ")?,
    }
    match value.short() {
        Some(short) => write!(f, "\"short\": \"{short}\", "),
        None => f.write_str("\"short\": null, "),
    }
}

fn write_names<W: fmt::Write>(f: &mut fmt::Formatter<W>, names: &[&str]) -> fmt::Result {
    let mut separator = "";
    for name in names {
        write!(f, "{separator}\"{name}\"")?;
        separator = ", ";
    }
    Ok(())
}

// Writes the names of the subcommands that have an argument.
fn write_users<W: fmt::Write>(f: &mut fmt::Formatter<W>, users: Users) -> fmt::Result {
    let mut separator = "";
    for it in definitions() {
        if it.subcommand.has(users) {
            write!(f, "{separator}\"{}\"", it.name)?;
            separator = ", ";
        }
    }
    Ok(())
}
