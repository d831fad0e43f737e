//! The tokens of an expression.
ghost use Rattle.std.specs.Prelude.{◌≤◌, length};
ghost use Rattle.std.specs.Iterator.{at_most};

use thiserror::Error;

/// A number, or any other character that isn't a space.
#[derive(Clone, Copy, Debug)]
pub enum Token {
    /// A number that fits an `i32`.
    Number(i32),
    /// A name, an operator, a parenthesis or any other character.
    Symbol(char),
}

/// A number that doesn't fit an `i32`.
#[derive(Clone, Copy, Debug, Error)]
#[error("a number is past 2147483647")]
pub struct TooLarge;

/// An iterator over the tokens of a text.
#[derive(Drop)]
pub struct Tokens<'a> {
    rest: &'a [u8],
}

impl<'a> Tokens<'a> {
    /// Returns the tokens of a text.
    pub fn new(text: &'a str) -> Tokens<'a> {
        Tokens {
            rest: text.as_bytes(),
        }
    }
}

impl<'a> Iterator for Tokens<'a> {
    type Item = Result<Token, TooLarge>;

    // Each token takes at least one byte, so loops over tokens end.
    ghost remaining = { λ tokens. at_most (length tokens.rest.now) };

    fn next(&mut self) -> Option<Result<Token, TooLarge>> {
        let text = self.rest.trim_ascii_start();
        let (first, others) = text.split_first()?;
        if !first.is_ascii_digit() {
            self.rest = others;
            return Some(Ok(Token::Symbol(char::from(*first))));
        }
        self.rest = after_digits(others);
        Some(leading_number(text).map(Token::Number).ok_or(TooLarge))
    }
}

/// Returns the number that the text begins with, or 0. `None` means that it doesn't fit.
fn leading_number(text: &[u8]) -> Option<i32> {
    let mut number: i32 = 0;
    for byte in text {
        let Some(digit) = char::from(*byte).to_digit(10) else {
            break;
        };
        number = number
            .checked_mul(10)?
            .checked_add(i32::try_from(digit).ok()?)?;
    }
    Some(number)
}

/// Returns the text after its leading digits.
fn after_digits(text: &[u8]) -> &[u8]
    ensures { length result.now ≤ length text.now }
{
    match text.iter().position(|byte| !byte.is_ascii_digit()) {
        Some(end) => &text[end..],
        None => &[],
    }
}
