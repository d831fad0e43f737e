//! The options of the command line, and the help.
use clap::{Arg, ArgAction, ArgGroup, Command};
use std::alloc::{AllocError, Global};

/// The version, and the kit that proves it.
const VERSION: &str = "0.1.0, written for logic dac8208d650f15bf";

/// The usage lines, for errors.
pub const USAGE: &str = "\
wasmcanon [FILE] [-o OUTPUT] [--force] [STRIP]
       wasmcanon FILE.. -o FOLDER/ [--force] [STRIP]
       wasmcanon --in-place FILE.. [--force] [STRIP]
       wasmcanon --check [FILE..] [--json | --quiet]
       wasmcanon --diff FILE OTHER [--all] [--json | --quiet]
       wasmcanon --hash [FILE..] [--no-custom] [--json] [STRIP]
       wasmcanon --list [FILE..] [--section NAME].. [--headers] [--json]
       wasmcanon --report [FILE..] [--json]";

// bin/wasmcanon prints these lines as they are here, so they have no escapes.
const HELP: &str = "\
Writes the canonical form of a WebAssembly module: every number, size, type,
index and limit has its minimal encoding.

Usage: wasmcanon [FILE] [-o OUTPUT] [--force] [STRIP]
       wasmcanon FILE.. -o FOLDER/ [--force] [STRIP]
       wasmcanon --in-place FILE.. [--force] [STRIP]
       wasmcanon --check [FILE..] [--json | --quiet]
       wasmcanon --diff FILE OTHER [--all] [--json | --quiet]
       wasmcanon --hash [FILE..] [--no-custom] [--json] [STRIP]
       wasmcanon --list [FILE..] [--section NAME].. [--headers] [--json]
       wasmcanon --report [FILE..] [--json]

Arguments:
  [FILE]..  Input modules [default: standard input; `-` too]

Options:
  -o, --output <OUTPUT>  Output file, or a folder in which each output has its
                         input's name [default: standard output]
      --in-place         Replace each FILE by its canonical form
      --force            Write to terminals; replace read-only files and inputs;
                         write object files
      --check            Check whether each FILE is canonical; write nothing
      --diff             Check whether FILE and OTHER have the same canonical
                         form
      --all              With --diff, print all items that differ
  -q, --quiet            With --check or --diff, print nothing; the exit status
                         is the answer
      --hash             Print the SHA-256 digest of each canonical form
      --list             Print the sections, items and instructions of each
                         FILE, and what is not minimally encoded
      --section <NAME>   With --list, print only sections of this kind, such as
                         `code`, or custom sections of this name
      --headers          With --list, print sections without their items
      --report           Print the size of each section before and after, and
                         how many of its items are not minimally encoded
      --json             Print an array with an object for each FILE; for --diff
                         print one object
      --any-order        Take modules whose sections are out of order or
                         repeated, or whose counts disagree
      --names            Put the contents of the custom sections `name` and
                         `producers` into their minimal encoding too
  -h, --help             Print help
  -V, --version          Print version

STRIP, which custom sections to drop:
      --strip <NAME>     Drop those of this name; `*` stands for any characters
      --strip-all        Drop all
      --strip-offsets    Drop those that keep offsets, as debug information does
      --keep <NAME>      Keep those of this name even so
      --no-custom        With --hash, the same as --strip-all

Examples:
  wasmcanon app.wasm -o app.canon.wasm  write the canonical form to another file
  wasmcanon --in-place *.wasm           replace modules
  wasmcanon --check app.wasm            fail unless the module is canonical
  wasmcanon --diff a.wasm b.wasm        fail unless their canonical forms match
  wasmcanon --hash *.wasm               hash canonical forms
  git config diff.wasm.textconv 'wasmcanon --list'
                                        let git diff show listings
  wasmcanon --strip-all --keep name app.wasm -o out.wasm
                                        drop custom sections, but keep names

Canonicalising moves bytes, so offsets in custom sections become stale: those in
`linking`, `reloc.*`, `.debug_*`, `external_debug_info`, `sourceMappingURL` and
`metadata.code.*`. But branch hints, in `metadata.code.branch_hint`, move with
their instructions. wasmcanon warns if bytes have moved and such a section is
kept; --strip-offsets drops them all. A module with `linking` or `reloc.*` is
an object file: canonicalise after linking.

Messages and reports number sections, and the items of a section, from 0.

Exit status; of several modules, the highest of 1 to 4 if there is one:
  0  written; --check: canonical; --diff: same canonical form
  1  malformed module, or sections out of order
  2  invalid arguments; without --force: a terminal, a read-only file or an
     input as output, or an object file to write to a file
  3  out of memory
  4  a read or a write failed
  5  --check: not canonical; --diff: different canonical forms";

/// The group of the options that write no module. At most one of them is allowed.
const QUESTION: &str = "question";

/// The group of the options that drop custom sections.
const STRIP: &str = "stripping";

/// An argument of the command line.
#[derive(Clone, Copy)]
struct Argument {
    name: &'static str,
    form: Form,
    /// The groups that the argument belongs to.
    groups: &'static [&'static str],
    /// The arguments and groups that exclude this one.
    conflicts: &'static [&'static str],
    /// The arguments and groups that this one requires.
    needs: &'static [&'static str],
}

/// The form of an argument.
#[derive(Clone, Copy)]
enum Form {
    /// By position, any number of times. The word is its name in messages.
    Named(&'static str),
    /// As a short or a long option with a value. The word is the value's name in messages.
    Value(char, &'static str),
    /// As a long option with a value, any number of times. The word is the value's name in messages.
    Values(&'static str),
    /// As a long option without a value.
    Flag,
    /// As a short or a long option without a value.
    ShortFlag(char),
}

const ARGUMENTS: [Argument; 21] = [
    Argument {
        name: "input",
        form: Form::Named("FILE"),
        groups: &[],
        conflicts: &[],
        needs: &[],
    },
    Argument {
        name: "output",
        form: Form::Value('o', "OUTPUT"),
        groups: &[],
        conflicts: &[QUESTION, "in-place"],
        needs: &[],
    },
    Argument {
        name: "in-place",
        form: Form::Flag,
        groups: &[],
        conflicts: &[QUESTION],
        needs: &[],
    },
    Argument {
        name: "force",
        form: Form::Flag,
        groups: &[],
        conflicts: &[],
        needs: &[],
    },
    Argument {
        name: "check",
        form: Form::Flag,
        groups: &[QUESTION],
        conflicts: &[],
        needs: &[],
    },
    Argument {
        name: "diff",
        form: Form::Flag,
        groups: &[QUESTION],
        conflicts: &[],
        needs: &[],
    },
    Argument {
        name: "hash",
        form: Form::Flag,
        groups: &[QUESTION],
        conflicts: &[],
        needs: &[],
    },
    Argument {
        name: "report",
        form: Form::Flag,
        groups: &[QUESTION],
        conflicts: &[],
        needs: &[],
    },
    Argument {
        name: "list",
        form: Form::Flag,
        groups: &[QUESTION],
        conflicts: &[],
        needs: &[],
    },
    Argument {
        name: "section",
        form: Form::Values("NAME"),
        groups: &[],
        conflicts: &["check", "diff", "hash", "report"],
        needs: &["list"],
    },
    Argument {
        name: "headers",
        form: Form::Flag,
        groups: &[],
        conflicts: &["check", "diff", "hash", "report"],
        needs: &["list"],
    },
    Argument {
        name: "all",
        form: Form::Flag,
        groups: &[],
        conflicts: &["check", "hash", "list", "report"],
        needs: &["diff"],
    },
    Argument {
        name: "quiet",
        form: Form::ShortFlag('q'),
        groups: &[],
        conflicts: &["hash", "list", "report", "all", "json"],
        needs: &[QUESTION],
    },
    Argument {
        name: "json",
        form: Form::Flag,
        groups: &[],
        conflicts: &[],
        needs: &[QUESTION],
    },
    Argument {
        name: "any-order",
        form: Form::Flag,
        groups: &[],
        conflicts: &[],
        needs: &[],
    },
    Argument {
        name: "names",
        form: Form::Flag,
        groups: &[],
        conflicts: &["diff", "list"],
        needs: &[],
    },
    Argument {
        name: "strip",
        form: Form::Values("NAME"),
        groups: &[STRIP],
        conflicts: &["check", "diff", "list", "report"],
        needs: &[],
    },
    Argument {
        name: "strip-all",
        form: Form::Flag,
        groups: &[STRIP],
        conflicts: &["check", "diff", "list", "report"],
        needs: &[],
    },
    Argument {
        name: "strip-offsets",
        form: Form::Flag,
        groups: &[STRIP],
        conflicts: &["check", "diff", "list", "report"],
        needs: &[],
    },
    Argument {
        name: "keep",
        form: Form::Values("NAME"),
        groups: &[],
        conflicts: &[],
        needs: &[STRIP],
    },
    Argument {
        name: "no-custom",
        form: Form::Flag,
        groups: &[STRIP],
        conflicts: &["check", "diff", "list", "report"],
        needs: &["hash"],
    },
];

/// Checks whether a word is the name of an option.
pub fn is_option(word: &str) -> bool {
    if word == "help" || word == "version" {
        return true;
    }
    for argument in &ARGUMENTS {
        let is_named = !matches!(argument.form, Form::Named(_));
        if is_named && argument.name == word {
            return true;
        }
    }
    false
}

/// Builds the command line.
///
/// Fails if memory runs out.
pub fn command<'a>(alloc: Global) -> Result<Command<'a>, AllocError> {
    let mut arguments = Vec::new(alloc);
    for argument in &ARGUMENTS {
        arguments.push(arg_of(alloc, argument)?)?;
    }
    Command::new(alloc, "wasmcanon")
        .version(VERSION)
        .override_usage(USAGE)
        .override_help(HELP)
        .group(several(alloc, STRIP))?
        .args(arguments)
}

/// Returns a group of which several options are allowed.
fn several<'a>(alloc: Global, name: &'static str) -> ArgGroup<'a> {
    ArgGroup::new(alloc, name).multiple(true)
}

fn arg_of<'a>(alloc: Global, argument: &Argument) -> Result<Arg<'a>, AllocError> {
    written_as(Arg::new(alloc, argument.name), argument)
        .groups(argument.groups)?
        .conflicts_with_all(argument.conflicts)?
        .requires_all(argument.needs)
}

/// Gives the parser's argument the form of this one.
fn written_as<'a>(arg: Arg<'a>, argument: &Argument) -> Arg<'a> {
    match argument.form {
        Form::Named(word) => arg.value_name(word).num_args(1..).action(ArgAction::Append),
        Form::Value(letter, word) => arg.short(letter).long(argument.name).value_name(word),
        Form::Values(word) => arg
            .long(argument.name)
            .value_name(word)
            .action(ArgAction::Append),
        Form::Flag => arg.long(argument.name).action(ArgAction::SetTrue),
        Form::ShortFlag(letter) => arg
            .short(letter)
            .long(argument.name)
            .action(ArgAction::SetTrue),
    }
}
