//! Patterns of names that match no custom section.
use canon_cli::request::Request;
use canon_cli::text::UnusedPattern;
use std::alloc::{AllocError, Global};
use wasm_listing::sections::SectionWalk;
use wasm_modules::selection::{Pattern, custom_name};

/// The patterns of the options `--strip` and `--keep`, and which of them have matched a custom section.
#[derive(Drop)]
pub struct PatternUses<'a> {
    uses: Vec<PatternUse<'a>>,
}

#[derive(Clone, Copy)]
struct PatternUse<'a> {
    option: &'static str,
    word: &'a str,
    has_matched: bool,
}

impl<'a> PatternUses<'a> {
    /// Returns the patterns of a request. None has matched.
    ///
    /// Fails if memory runs out.
    pub fn new(alloc: Global, request: &Request<'a>) -> Result<PatternUses<'a>, AllocError> {
        let mut uses = Vec::new(alloc);
        push_words(&mut uses, "--strip", &request.dropped)?;
        push_words(&mut uses, "--keep", &request.kept)?;
        Ok(PatternUses { uses })
    }

    /// Notes which patterns match a custom section of the module.
    pub fn note_module(&mut self, alloc: Global, module: &[u8]) {
        if self.uses.is_empty() {
            return;
        }
        for located in SectionWalk::new(alloc, module) {
            if let Some(name) = custom_name(located.section) {
                self.note_name(name);
            }
        }
    }

    /// Notes which patterns match `name`.
    fn note_name(&mut self, name: &str) {
        for pattern in &mut self.uses {
            if !pattern.has_matched {
                pattern.has_matched = Pattern::new(pattern.word).matches(name);
            }
        }
    }

    /// Warns of each pattern that has matched nothing.
    pub fn warn(&self, rt: &HostRuntime) {
        for pattern in &self.uses {
            if !pattern.has_matched {
                let (option, word) = (pattern.option, pattern.word);
                let _ = eprintln!(rt; "{}", UnusedPattern { option, word });
            }
        }
    }
}

/// Appends the patterns of an option. None has matched.
fn push_words<'a>(
    uses: &mut Vec<PatternUse<'a>>,
    option: &'static str,
    words: &[&'a str],
) -> Result<(), AllocError> {
    for word in words {
        uses.push(PatternUse {
            option,
            word,
            has_matched: false,
        })?;
    }
    Ok(())
}
