//! The tokens of a line.

ghost use Rattle.std.specs.Prelude.{◌≡◌, ℕ, ◌+◌, ◌<◌, ◌≤◌, ◌∷◌, ◌++◌, length, map, IfOk, MatchOption, []};
ghost use Rattle.std.specs.List.{prefix_len};
ghost use Rattle.asm_words.specs.declared.lexing.Class.TheVariants as class;
ghost use Rattle.asm_words.specs.Words.{is_name_byte};
ghost use Rattle.asm_words.specs.Tokens.{class_of, escape_of, is_printable, token_of, tokens_of, lex, Takes, TakesText, IsPiece, spans};

use crate::words::is_name_byte;
use std::alloc::{AllocError, Global};

/// What a byte is outside quotes.
#[derive(Clone, Copy)]
pub enum Class {
    Blank,
    Word,
    Mark,
    Quote,
    Hash,
    Other,
}

/// A token of a line.
#[derive(Drop)]
pub enum Token<'a> {
    /// A minus or none, and letters, digits, `_` and `.`, as many as stand together.
    Word(&'a [u8]),
    /// A comma, a colon or a parenthesis.
    Mark(u8),
    /// What a quoted text stands for.
    Text(Vec<u8>),
    /// Anything else.
    Stray,
}

fn class_of(b: u8) -> Class
    ensures { result ≡ class_of b }
{
    match b {
        b' ' | b'\t' => Class::Blank,
        b',' | b':' | b'(' | b')' => Class::Mark,
        b'"' => Class::Quote,
        b'#' => Class::Hash,
        b'-' => Class::Word,
        _ if is_name_byte(b) => Class::Word,
        _ => Class::Other,
    }
}

/// How many bytes of a name stand at the front.
fn name_len(bytes: &[u8]) -> usize
    ensures { result ≡ prefix_len is_name_byte bytes.now }
{
    bytes.iter().take_while(|b| is_name_byte(**b)).count()
}

fn is_printable(b: u8) -> bool
    ensures { result ≡ is_printable b }
{
    (32..=126).contains(&b)
}

fn escape_of(b: u8) -> Option<u8>
    ensures { result ≡ escape_of b }
{
    match b {
        b'n' => Some(10),
        b't' => Some(9),
        b'\\' => Some(92),
        b'"' => Some(34),
        b'0' => Some(0),
        _ => None,
    }
}

/// The first byte, and the bytes after it.
fn first_of(bytes: &[u8]) -> Option<(u8, &[u8])>
    ensures { MatchOption result (bytes.now ≡ []) (λ x. bytes.now ≡ x.0 ∷ x.1.now) }
{
    let (first, after) = bytes.split_first()?;
    Some((*first, after))
}

/// What stands at the front of the bytes inside quotes.
enum Piece<'a> {
    /// The quote, and what follows.
    End(&'a [u8]),
    /// A byte of the text, and what follows.
    Byte(u8, &'a [u8]),
    /// Nothing that a text may have.
    Bad,
}

fn piece_at(bytes: &[u8]) -> Piece<'_>
    ensures { IsPiece bytes.now result }
{
    let Some((first, after)) = first_of(bytes) else {
        return Piece::Bad
    };
    if first == b'"' {
        return Piece::End(after);
    }
    if first != b'\\' {
        return if is_printable(first) {
            Piece::Byte(first, after)
        } else {
            Piece::Bad
        };
    }
    let Some((second, after)) = first_of(after) else {
        return Piece::Bad
    };
    match escape_of(second) {
        Some(byte) => Piece::Byte(byte, after),
        None => Piece::Bad,
    }
}

/// The text behind a quote, and what follows its end.
fn text_at(alloc: Global, bytes: &[u8]) -> Result<(Token<'_>, &[u8]), AllocError>
    ensures { IfOk result (λ x. TakesText bytes.now x.0 x.1.now) }
{
    let mut text = Vec::new(alloc);
    let mut rest = bytes;
    'pieces: loop {
        match piece_at(rest) {
            Piece::End(after) => return Ok((Token::Text(text), after)),
            Piece::Byte(byte, after) => {
                text.push(byte)?;
                rest = after;
            }
            Piece::Bad => return Ok((Token::Stray, &[])),
        }
    }
}

/// What is taken from the front of the bytes: a token, or blanks or a comment.
fn token_at(alloc: Global, bytes: &[u8]) -> Result<(Option<Token<'_>>, &[u8]), AllocError>
    requires { 0 < length bytes.now }
    ensures { IfOk result (λ x. Takes bytes.now x.0 x.1.now) }
{
    let Some((first, after)) = first_of(bytes) else {
        return Ok((None, &[]))
    };
    match class_of(first) {
        Class::Blank => Ok((None, after)),
        Class::Hash => Ok((None, &[])),
        Class::Mark => Ok((Some(Token::Mark(first)), after)),
        Class::Other => Ok((Some(Token::Stray), after)),
        Class::Word => Ok(word_at(bytes, first, after)),
        Class::Quote => {
            let (text, after) = text_at(alloc, after)?;
            Ok((Some(text), after))
        }
    }
}

/// The word at the front, whose first byte may be a minus.
fn word_at<'s>(bytes: &'s [u8], first: u8, after: &'s [u8]) -> (Option<Token<'s>>, &'s [u8])
    requires whole { bytes.now ≡ first ∷ after.now }
    requires word { class_of first ≡ class.Word }
    ensures { Takes bytes.now result.0 result.1.now }
{
    let (_, rest) = after.split_at(name_len(after));
    let word = &bytes[..bytes.len() - rest.len()];
    (Some(Token::Word(word)), rest)
}

/// The tokens of a line.
pub fn tokens(alloc: Global, line: &[u8]) -> Result<Vec<Token<'_>>, AllocError>
    ensures value { IfOk result (λ v. map token_of v.items ≡ tokens_of line.now) }

    // The tokens fit the line.
    ensures fits { IfOk result (λ v. spans (map token_of v.items) ≤ length line.now) }
{
    let mut tokens = Vec::new(alloc);
    let mut rest = line;
    while !rest.is_empty() {
        let (token, after) = token_at(alloc, rest)?;
        if let Some(token) = token {
            tokens.push(token)?;
        }
        rest = after;
    }
    Ok(tokens)
}
