//! The words of a command line.
ghost use Rattle.std.specs.Prelude.{◌≡◌, MatchOption, None, Some};
ghost use Rattle.sq_words.specs.Words.{command_of, kind_of, meant, named_command, texts};

use crate::options::{Way, options_of};
use crate::seeds::seed_number;

/// What a command does.
#[derive(Clone, Copy, Debug, PartialEq, Eq)]
pub enum Kind {
    Check,
    Fmt,
    Plan,
    Eval,
    Run,
    Demo,
    Compile,
    Tune,
    Span,
    Exec,
}

/// `check PROG`
#[derive(Clone, Copy)]
pub struct Check<'a> {
    pub program: &'a str,
}

/// `fmt PROG`
#[derive(Clone, Copy)]
pub struct Fmt<'a> {
    pub program: &'a str,
}

/// `plan PROG MAP MACH`
#[derive(Clone, Copy)]
pub struct Plan<'a> {
    pub program: &'a str,
    pub mapping: &'a str,
    pub machine: &'a str,
}

/// `eval PROG MAP MACH DATA`
#[derive(Clone, Copy)]
pub struct Eval<'a> {
    pub program: &'a str,
    pub mapping: &'a str,
    pub machine: &'a str,
    pub input: &'a str,
}

/// `run PROG MAP MACH DATA`, with `order=first` and `trace=no` where its options don't say otherwise
#[derive(Clone, Copy)]
pub struct Run<'a> {
    pub program: &'a str,
    pub mapping: &'a str,
    pub machine: &'a str,
    pub input: &'a str,
    pub order: Way<'a>,
    pub traced: bool,
}

/// `demo N`, whose number is the seed of its data and of its order
#[derive(Clone, Copy)]
pub struct Demo {
    pub seed: u64,
}

/// `compile PROG MAP MACH`
#[derive(Clone, Copy)]
pub struct Compile<'a> {
    pub program: &'a str,
    pub mapping: &'a str,
    pub machine: &'a str,
}

/// `tune PROG MAP MACH`
#[derive(Clone, Copy)]
pub struct Tune<'a> {
    pub program: &'a str,
    pub mapping: &'a str,
    pub machine: &'a str,
}

/// `span PROG MAP MACH COST`
#[derive(Clone, Copy)]
pub struct Span<'a> {
    pub program: &'a str,
    pub mapping: &'a str,
    pub machine: &'a str,
    pub cost: &'a str,
}

/// `exec PLAN DATA`, with options as those of `run`
#[derive(Clone, Copy)]
pub struct Exec<'a> {
    pub plan: &'a str,
    pub input: &'a str,
    pub order: Way<'a>,
    pub traced: bool,
}

/// A command with the names of its files.
#[derive(Clone, Copy)]
pub enum Command<'a> {
    Check(Check<'a>),
    Fmt(Fmt<'a>),
    Plan(Plan<'a>),
    Eval(Eval<'a>),
    Run(Run<'a>),
    Demo(Demo),
    Compile(Compile<'a>),
    Tune(Tune<'a>),
    Span(Span<'a>),
    Exec(Exec<'a>),
}

/// The command that the words are, if they are one. It takes no memory.
pub fn parse(words: &[String]) -> Option<Command<'_>>
    ensures { MatchOption result (command_of (texts words.now) ≡ None)
        (λ c. command_of (texts words.now) ≡ Some (meant c)) }
{
    match words {
        [first, words @ ..] => match kind_for(first.as_str()) {
            Some(kind) => with_words(kind, words),
            None => None,
        },
        [] => None,
    }
}

// The kind of command that begins with this word.
fn kind_for(word: &str) -> Option<Kind>
    ensures { result ≡ kind_of word.now }
{
    if word == "check" {
        Some(Kind::Check)
    } else if word == "fmt" {
        Some(Kind::Fmt)
    } else if word == "plan" {
        Some(Kind::Plan)
    } else if word == "eval" {
        Some(Kind::Eval)
    } else if word == "run" {
        Some(Kind::Run)
    } else if word == "demo" {
        Some(Kind::Demo)
    } else if word == "compile" {
        Some(Kind::Compile)
    } else if word == "tune" {
        Some(Kind::Tune)
    } else if word == "span" {
        Some(Kind::Span)
    } else if word == "exec" {
        Some(Kind::Exec)
    } else {
        None
    }
}

// The command of that kind with these words behind its first, if they are names and options for it.
fn with_words(kind: Kind, words: &[String]) -> Option<Command<'_>>
    ensures { MatchOption result (named_command (Some kind) (texts words.now) ≡ None)
        (λ c. named_command (Some kind) (texts words.now) ≡ Some (meant c)) }
{
    match (kind, words) {
        (Kind::Check, [program]) => Some(Command::Check(Check {
            program: program.as_str(),
        })),
        (Kind::Fmt, [program]) => Some(Command::Fmt(Fmt {
            program: program.as_str(),
        })),
        (Kind::Plan, [program, mapping, machine]) => Some(Command::Plan(Plan {
            program: program.as_str(),
            mapping: mapping.as_str(),
            machine: machine.as_str(),
        })),
        (Kind::Eval, [program, mapping, machine, input]) => Some(Command::Eval(Eval {
            program: program.as_str(),
            mapping: mapping.as_str(),
            machine: machine.as_str(),
            input: input.as_str(),
        })),
        (Kind::Run, [program, mapping, machine, input, words @ ..]) => {
            let options = options_of(words)?;
            Some(Command::Run(Run {
                program: program.as_str(),
                mapping: mapping.as_str(),
                machine: machine.as_str(),
                input: input.as_str(),
                order: options.order_or_first(),
                traced: options.traced.unwrap_or(false),
            }))
        }
        (Kind::Demo, [number]) => match seed_number(number.as_str()) {
            Some(seed) => Some(Command::Demo(Demo { seed })),
            None => None,
        },
        (Kind::Compile, [program, mapping, machine]) => Some(Command::Compile(Compile {
            program: program.as_str(),
            mapping: mapping.as_str(),
            machine: machine.as_str(),
        })),
        (Kind::Tune, [program, mapping, machine]) => Some(Command::Tune(Tune {
            program: program.as_str(),
            mapping: mapping.as_str(),
            machine: machine.as_str(),
        })),
        (Kind::Span, [program, mapping, machine, cost]) => Some(Command::Span(Span {
            program: program.as_str(),
            mapping: mapping.as_str(),
            machine: machine.as_str(),
            cost: cost.as_str(),
        })),
        (Kind::Exec, [plan, input, words @ ..]) => {
            let options = options_of(words)?;
            Some(Command::Exec(Exec {
                plan: plan.as_str(),
                input: input.as_str(),
                order: options.order_or_first(),
                traced: options.traced.unwrap_or(false),
            }))
        }
        _ => None,
    }
}
