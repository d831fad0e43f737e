//! The texts for `--help` and `--version`.

// bin/wasmnorm prints these lines as they are here, so they have no escapes.
const HELP: &str = "\
Writes the minimal encoding of WebAssembly bytes: reads standard input, and
writes standard output.

Usage: wasmnorm calls|types|module

Arguments:
  calls   A list of instructions
  types   The body of a type section
  module  A module: wasmnorm shortens section sizes, type sections and code
          sections, and copies the bodies of all other sections

Options:
  -h, --help     Print help
  -V, --version  Print version

Examples:
  wasmnorm module < app.wasm > app.norm.wasm  normalise a module

Normalising moves bytes, so offsets in custom sections become stale: those in
`linking`, `reloc.*`, `.debug_*`, `external_debug_info`, `sourceMappingURL` and
`metadata.code.*`.

Exit status:
  0  written
  1  the input is malformed: `refused at N` gives the offset
  2  invalid arguments
  3  out of memory
  4  a read or a write failed";

const VERSION: &str = "wasmnorm 0.1.0";

/// Returns the text that the arguments ask for. `None` means that they ask for no text.
pub fn text_of(args: &[&str]) -> Option<&'static str> {
    match args {
        [word] => match *word {
            "--help" | "-h" => Some(HELP),
            "--version" | "-V" => Some(VERSION),
            _ => None,
        },
        _ => None,
    }
}
