//! The tokens of a line.
ghost use Rattle.std.specs.Prelude.{◌≤◌, length};
ghost use Rattle.std.specs.Iterator.{at_most};

use crate::faults::Fault;

/// A token of a line.
#[derive(Clone, Copy, Debug)]
pub enum Token<'a> {
    /// A number.
    Number(i32),
    /// A name that no parenthesis follows.
    Name(&'a [u8]),
    /// A name, and the parenthesis that follows it.
    Call(&'a [u8]),
    /// A text between quotation marks.
    Text(&'a [u8]),
    /// Any other character.
    Symbol(u8),
}

/// An iterator over the tokens of a line, up to a comment, which begins with `#`.
#[derive(Drop)]
pub struct Tokens<'a> {
    rest: &'a [u8],
}

impl<'a> Tokens<'a> {
    /// Returns the tokens of a line.
    pub fn new(line: &'a [u8]) -> Tokens<'a> {
        Tokens { rest: line }
    }

    /// Takes a name.
    pub fn name(&mut self) -> Result<&'a [u8], Fault> {
        match self.next() {
            Some(Ok(Token::Name(name))) => Ok(name),
            Some(Err(fault)) => Err(fault),
            _ => Err(Fault::NoName),
        }
    }

    /// Takes a name and the parenthesis that follows it.
    pub fn head(&mut self) -> Result<&'a [u8], Fault> {
        match self.next() {
            Some(Ok(Token::Call(name))) => Ok(name),
            Some(Err(fault)) => Err(fault),
            _ => Err(Fault::NoHead),
        }
    }

    /// Takes a number.
    pub fn number(&mut self) -> Result<i32, Fault> {
        match self.next() {
            Some(Ok(Token::Number(number))) => Ok(number),
            Some(Err(fault)) => Err(fault),
            _ => Err(Fault::NoNumber),
        }
    }

    /// Takes a text.
    pub fn text(&mut self) -> Result<&'a [u8], Fault> {
        match self.next() {
            Some(Ok(Token::Text(text))) => Ok(text),
            Some(Err(fault)) => Err(fault),
            _ => Err(Fault::NoText),
        }
    }

    /// Takes `=`.
    pub fn equals(&mut self) -> Result<(), Fault> {
        match self.next() {
            Some(Ok(Token::Symbol(b'='))) => Ok(()),
            Some(Err(fault)) => Err(fault),
            _ => Err(Fault::NoEquals),
        }
    }

    /// Fails if there is another token.
    pub fn end(&mut self) -> Result<(), Fault> {
        match self.next() {
            None => Ok(()),
            Some(Ok(_)) => Err(Fault::Misplaced),
            Some(Err(fault)) => Err(fault),
        }
    }
}

impl<'a> Iterator for Tokens<'a> {
    type Item = Result<Token<'a>, Fault>;

    // Each token takes at least one byte, so loops over tokens end.
    ghost remaining = { λ tokens. at_most (length tokens.rest.now) };

    fn next(&mut self) -> Option<Result<Token<'a>, Fault>> {
        let text = self.rest.trim_ascii_start();
        let (first, others) = text.split_first()?;
        if *first == b'#' {
            return None;
        }
        self.rest = after_token(*first, others);
        Some(token_of(*first, text, others))
    }
}

/// Returns the token at the front of `text`, whose first byte is `first`, and `others` are the bytes after that.
fn token_of<'a>(first: u8, text: &'a [u8], others: &'a [u8]) -> Result<Token<'a>, Fault> {
    if first.is_ascii_digit() {
        return match leading_number(text) {
            Some(number) => Ok(Token::Number(number)),
            None => Err(Fault::TooLarge),
        };
    }
    if first == b'"' {
        return match leading_text(others) {
            Some(text) => Ok(Token::Text(text)),
            None => Err(Fault::OpenText),
        };
    }
    if !is_letter(first) {
        return Ok(Token::Symbol(first));
    }
    let (name, after) = split_name(text);
    match after.first() {
        Some(b'(') => Ok(Token::Call(name)),
        _ => Ok(Token::Name(name)),
    }
}

/// Returns the bytes after the token whose first byte is `first`, among the bytes after that one.
fn after_token(first: u8, others: &[u8]) -> &[u8]
    ensures { length result.now ≤ length others.now }
{
    if first.is_ascii_digit() {
        return after_digits(others);
    }
    if first == b'"' {
        return after_text(others);
    }
    if !is_letter(first) {
        return others;
    }
    let (_, after) = split_name(others);
    match after.split_first() {
        Some((b'(', after)) => after,
        _ => after,
    }
}

/// Returns the number that the text begins with, or 0. `None` means that it doesn't fit.
fn leading_number(text: &[u8]) -> Option<i32> {
    let mut number: i32 = 0;
    for byte in text {
        let Some(digit) = char::from(*byte).to_digit(10) else {
            break;
        };
        number = number
            .checked_mul(10)?
            .checked_add(i32::try_from(digit).ok()?)?;
    }
    Some(number)
}

/// Returns the bytes after the leading digits.
fn after_digits(text: &[u8]) -> &[u8]
    ensures { length result.now ≤ length text.now }
{
    match text.iter().position(|byte| !byte.is_ascii_digit()) {
        Some(end) => &text[end..],
        None => &[],
    }
}

/// Returns the bytes up to a quotation mark.
fn leading_text(text: &[u8]) -> Option<&[u8]> {
    let end = text.iter().position(|byte| *byte == b'"')?;
    Some(&text[..end])
}

/// Returns the bytes after a quotation mark.
fn after_text(text: &[u8]) -> &[u8]
    ensures { length result.now ≤ length text.now }
{
    match text.iter().position(|byte| *byte == b'"') {
        Some(end) => &text[end + 1..],
        None => &[],
    }
}

/// Splits the text after its leading letters, digits and underscores.
fn split_name(text: &[u8]) -> (&[u8], &[u8])
    ensures { length result.1.now ≤ length text.now }
{
    match text.iter().position(|byte| !is_in_name(*byte)) {
        Some(end) => text.split_at(end),
        None => (text, &[]),
    }
}

/// Returns whether a name can begin with this byte.
fn is_letter(byte: u8) -> bool {
    byte.is_ascii_alphabetic() || byte == b'_'
}

/// Returns whether a name can have this byte.
fn is_in_name(byte: u8) -> bool {
    is_letter(byte) || byte.is_ascii_digit()
}
