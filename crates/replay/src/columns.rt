//! The columns of a line, and the tokens that stand for values.

use crate::mismatch::Mismatch;

/// A value of a vector.
#[derive(Clone, Copy)]
pub enum Token {
    U32(u32),
    U64(u64),
    I32(i32),
    I64(i64),
    Usize(usize),
}

/// The three columns of a line.
pub fn columns(line: &str) -> Result<(&str, &str, &str), Mismatch> {
    let (first, rest) = line.split_once('\t').ok_or(Mismatch::NotUnderstood)?;
    let (second, third) = rest.split_once('\t').ok_or(Mismatch::NotUnderstood)?;
    Ok((first, second, third))
}

/// Reads the value that a token stands for, as in `u32:7`.
pub fn parse_token(text: &str) -> Result<Token, Mismatch> {
    parse(text).ok_or(Mismatch::NotUnderstood)
}

fn parse(text: &str) -> Option<Token> {
    let (kind, value) = text.split_once(':')?;
    match kind {
        "u32" => Some(Token::U32(value.parse().ok()?)),
        "u64" => Some(Token::U64(value.parse().ok()?)),
        "i32" => Some(Token::I32(value.parse().ok()?)),
        "i64" => Some(Token::I64(value.parse().ok()?)),
        "usize" => Some(Token::Usize(value.parse().ok()?)),
        _ => None,
    }
}
