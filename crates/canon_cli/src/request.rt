//! What the command line asks for.
use crate::words::NOT_TEXT;
use clap::ArgMatches;
use std::alloc::{AllocError, Global};

/// An input or an output of bytes.
#[derive(Clone, Copy, PartialEq, Eq)]
pub enum Location<'a> {
    /// Standard input or standard output.
    Standard,
    /// A file, by its path.
    File(&'a str),
    /// A file whose path isn't UTF-8, which can't be opened. Holds the path with escapes.
    NotText(&'a str),
}

impl<'a> Location<'a> {
    /// Returns the location that a word names: the standard stream if it is `-`, and a path otherwise.
    pub fn named(word: &'a str) -> Location<'a> {
        if word == "-" {
            return Location::Standard;
        }
        match word.strip_prefix(NOT_TEXT) {
            Some(path) => Location::NotText(path),
            None => Location::File(word),
        }
    }

    /// Returns the word that names the location.
    pub fn word(self) -> &'a str {
        match self {
            Location::Standard => "-",
            Location::File(path) | Location::NotText(path) => path,
        }
    }
}

/// The output of the canonical form of a module.
#[derive(Clone, Copy)]
pub enum Output<'a> {
    /// Standard output.
    Standard,
    /// A file, or a folder in which the output has the input's name.
    Path(&'a str),
    /// The input.
    InPlace,
}

/// The action of a run on the modules.
#[derive(Clone, Copy, PartialEq, Eq)]
pub enum Action {
    /// Write their canonical forms.
    Write,
    /// Check whether each is its own canonical form.
    Check,
    /// Check whether two have the same canonical form.
    Diff,
    /// Print the size of each section before and after, and count the items that are not minimally encoded.
    Report,
    /// Print the SHA-256 digests of their canonical forms.
    Hash,
    /// Print listings of them.
    List,
}

impl Action {
    fn from_matches(matches: &ArgMatches<'_>) -> Action {
        if matches.get_flag("check") {
            Action::Check
        } else if matches.get_flag("diff") {
            Action::Diff
        } else if matches.get_flag("report") {
            Action::Report
        } else if matches.get_flag("hash") {
            Action::Hash
        } else if matches.get_flag("list") {
            Action::List
        } else {
            Action::Write
        }
    }
}

/// What the command line asks for.
#[derive(Drop)]
pub struct Request<'a> {
    /// The modules.
    pub inputs: Vec<&'a str>,
    /// The action.
    pub action: Action,
    /// The output, if canonical forms are written.
    pub output: Output<'a>,
    /// Whether a terminal may be written to, a read-only file or an input replaced, and an object file written.
    pub force: bool,
    /// Whether sections may come in any order, and more than once.
    pub any_order: bool,
    /// Whether the contents of sections `name` and `producers` get their minimal encoding too.
    pub names: bool,
    /// Whether results are printed as JSON.
    pub json: bool,
    /// Kinds and names of the sections that are listed. Without any, all are.
    pub sections: Vec<&'a str>,
    /// Whether sections are listed without their items.
    pub headers: bool,
    /// Whether all items that differ are listed.
    pub all: bool,
    /// Whether the exit status is the only answer.
    pub quiet: bool,
    /// Whether all custom sections are dropped.
    pub strip_all: bool,
    /// Whether custom sections are dropped that keep offsets.
    pub strip_offsets: bool,
    /// Patterns of the names of custom sections to drop.
    pub dropped: Vec<&'a str>,
    /// Patterns of the names of custom sections to keep even so.
    pub kept: Vec<&'a str>,
}

impl<'a> Request<'a> {
    /// Reads the request from the matches of a command line.
    ///
    /// Fails if memory runs out.
    pub fn from_matches(
        alloc: Global,
        matches: &ArgMatches<'a>,
    ) -> Result<Request<'a>, AllocError> {
        Ok(Request {
            inputs: inputs_of(alloc, matches)?,
            action: Action::from_matches(matches),
            output: output_of(matches),
            force: matches.get_flag("force"),
            any_order: matches.get_flag("any-order"),
            names: matches.get_flag("names"),
            json: matches.get_flag("json"),
            sections: words_of(alloc, matches, "section")?,
            headers: matches.get_flag("headers"),
            all: matches.get_flag("all"),
            quiet: matches.get_flag("quiet"),
            strip_all: matches.get_flag("strip-all") || matches.get_flag("no-custom"),
            strip_offsets: matches.get_flag("strip-offsets"),
            dropped: words_of(alloc, matches, "strip")?,
            kept: words_of(alloc, matches, "keep")?,
        })
    }

    /// Returns what doesn't go together, if anything.
    pub fn fault(&self) -> Option<&'static str> {
        let count = self.inputs.len();
        let standard = self.inputs.iter().filter(|word| **word == "-").count();
        if standard > 1 {
            Some("standard input can be only one of the modules")
        } else if self.action == Action::Diff && count != 2 {
            Some("--diff compares two modules: name two files")
        } else if self.action != Action::Write {
            None
        } else {
            match self.output {
                Output::InPlace if standard > 0 => Some("--in-place needs the names of files"),
                Output::Standard if count > 1 => Some(
                    "several modules need -o FOLDER/, or --in-place to replace them",
                ),
                _ => None,
            }
        }
    }
}

/// Returns the inputs that the command line names: standard input if it names none.
fn inputs_of<'a>(alloc: Global, matches: &ArgMatches<'a>) -> Result<Vec<&'a str>, AllocError> {
    let mut inputs = words_of(alloc, matches, "input")?;
    if inputs.is_empty() {
        inputs.push("-")?;
    }
    Ok(inputs)
}

/// Returns the values of an argument.
fn words_of<'a>(
    alloc: Global,
    matches: &ArgMatches<'a>,
    name: &str,
) -> Result<Vec<&'a str>, AllocError> {
    let mut words = Vec::new(alloc);
    for word in matches.get_strs(name).unwrap_or(&[]) {
        words.push(*word)?;
    }
    Ok(words)
}

fn output_of<'a>(matches: &ArgMatches<'a>) -> Output<'a> {
    if matches.get_flag("in-place") {
        return Output::InPlace;
    }
    match matches.get_str("output") {
        None | Some("-") => Output::Standard,
        Some(path) => Output::Path(path),
    }
}
