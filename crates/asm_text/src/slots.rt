//! What each slot of a row wants of its token.

ghost use Rattle.std.specs.Prelude.{true, false, ◌≡◌, ℕ, ◌+◌, ◌<◌, ◌≤◌, ◌∷◌, length, map, IfOk, IfSome};
ghost use Rattle.std.specs.Option.{option_map};
ghost use Rattle.std.specs.List.{list_all};
ghost use Rattle.asm_words.specs.Tokens.{token_of, span, spans};
ghost use Rattle.asm_text.specs.Statements.{fields_seen, bulk};
ghost use Rattle.asm_text.specs.Slots.{seen, worst, fault_or, register_in, number_in, label_in, text_in, mark_in, read_slot, read_values, is_comma, is_value, are_values, value_fits, read_slots};

use crate::statements::Fields;
use asm_words::{Token, bits_of, in_range, is_name, number_of, register_of};

/// What is wrong with a line.
#[derive(Clone, Copy, Debug, PartialEq, Eq)]
pub enum What {
    /// It is not of the grammar, or has operands that its statement doesn't take.
    Form,
    /// There is no such statement or register.
    Name,
    /// A number is outside its range.
    Range,
    /// It stands at an address at which it may not stand: the layer above finds this.
    Place,
}

/// A place in a statement's form.
#[derive(Clone, Copy)]
pub enum Slot {
    Rd,
    Rs1,
    Rs2,
    /// A comma or a parenthesis.
    Mark(u8),
    /// A number from `-below` to `above`.
    Number(u64, u64),
    Label,
    Text,
    /// The last: numbers from `-below` to `above` with commas between them, or labels where those are taken.
    Values(u64, u64, bool),
}

/// The fault that counts of two on one line.
fn worst(a: What, b: What) -> What
    ensures { result ≡ worst a b }
{
    match (a, b) {
        (What::Form, _) | (_, What::Form) => What::Form,
        (What::Name, _) | (_, What::Name) => What::Name,
        (What::Range, _) | (_, What::Range) => What::Range,
        _ => What::Place,
    }
}

fn register_in(token: &Token<'_>) -> Result<u8, What>
    ensures { result ≡ register_in (token_of token.now) }
{
    let Token::Word(word) = token else {
        return Err(What::Form)
    };
    match register_of(word) {
        Some(register) => Ok(register),
        None if is_name(word) => Err(What::Name),
        None => Err(What::Form),
    }
}

fn number_in(token: &Token<'_>, below: u64, above: u64) -> Result<u64, What>
    ensures { result ≡ number_in below above (token_of token.now) }
{
    let Token::Word(word) = token else {
        return Err(What::Form)
    };
    match number_of(word) {
        Some(number) if in_range(number, below, above) => Ok(bits_of(number)),
        Some(_) => Err(What::Range),
        None => Err(What::Form),
    }
}

fn label_in<'s>(token: &Token<'s>) -> Result<&'s [u8], What>
    ensures { seen (λ x. x.now) result ≡ label_in (token_of token.now) }
{
    match token {
        Token::Word(word) if is_name(word) => Ok(word),
        _ => Err(What::Form),
    }
}

fn text_in<'t>(token: &'t Token<'_>) -> Result<&'t [u8], What>
    ensures { seen (λ x. x.now) result ≡ text_in (token_of token.now) }
{
    match token {
        Token::Text(text) => Ok(text.as_slice()),
        _ => Err(What::Form),
    }
}

fn mark_in(token: &Token<'_>, mark: u8) -> Result<(), What>
    ensures { result ≡ mark_in mark (token_of token.now) }
{
    match token {
        Token::Mark(b) if *b == mark => Ok(()),
        _ => Err(What::Form),
    }
}

/// The fields with what the token gives to one of them.
fn read_slot<'s, 't>(
    slot: Slot,
    token: &'t Token<'s>,
    fields: Fields<'s, 't>,
) -> Result<Fields<'s, 't>, What>
    ensures value { seen fields_seen result ≡ read_slot slot (token_of token.now) (fields_seen fields.entry) }
    ensures bulk { IfOk result (λ f. bulk (fields_seen f) ≤ bulk (fields_seen fields.entry) + span (token_of token.now)) }
{
    let mut fields = fields;
    match slot {
        Slot::Rd => fields.rd = register_in(token)?,
        Slot::Rs1 => fields.rs1 = register_in(token)?,
        Slot::Rs2 => fields.rs2 = register_in(token)?,
        Slot::Mark(mark) => mark_in(token, mark)?,
        Slot::Number(below, above) => fields.number = number_in(token, below, above)?,
        Slot::Label => fields.label = label_in(token)?,
        Slot::Text => fields.text = text_in(token)?,
        Slot::Values(_, _, _) => return Err(What::Form),
    }
    Ok(fields)
}

fn is_comma(token: &Token<'_>) -> bool
    ensures { result ≡ is_comma (token_of token.now) }
{
    matches!(token, Token::Mark(b','))
}

fn is_value(labels: bool, token: &Token<'_>) -> bool
    ensures { result ≡ is_value labels (token_of token.now) }
{
    match token {
        Token::Word(word) => number_of(word).is_some() || (labels && is_name(word)),
        _ => false,
    }
}

/// Whether the tokens are values with commas between them.
fn are_values(labels: bool, tokens: &[Token<'_>]) -> bool
    ensures { result ≡ are_values labels false (map token_of tokens.now) }
{
    let mut wants_comma = false;
    for token in tokens {
        let is_right = if wants_comma {
            is_comma(token)
        } else {
            is_value(labels, token)
        };
        if !is_right {
            return false;
        }
        wants_comma = !wants_comma;
    }
    wants_comma
}

/// Whether a token is in a number's range, if it is a number.
fn value_fits(token: &Token<'_>, below: u64, above: u64) -> bool
    ensures { result ≡ value_fits below above (token_of token.now) }
{
    match token {
        Token::Word(word) => number_of(word).is_none_or(|number| in_range(number, below, above)),
        _ => true,
    }
}

fn all_fit(tokens: &[Token<'_>], below: u64, above: u64) -> bool
    ensures { result ≡ list_all (value_fits below above) (map token_of tokens.now) }
{
    for token in tokens {
        if !value_fits(token, below, above) {
            return false;
        }
    }
    true
}

fn read_values<'s, 't>(
    below: u64,
    above: u64,
    labels: bool,
    tokens: &'t [Token<'s>],
    fields: Fields<'s, 't>,
) -> Result<Fields<'s, 't>, What>
    ensures value { seen fields_seen result ≡ read_values below above labels (map token_of tokens.now) (fields_seen fields.entry) }
    ensures bulk { IfOk result (λ f. bulk (fields_seen f) ≤ bulk (fields_seen fields.entry) + spans (map token_of tokens.now)) }
{
    if !are_values(labels, tokens) {
        return Err(What::Form);
    }
    if !all_fit(tokens, below, above) {
        return Err(What::Range);
    }
    Ok(Fields {
        values: tokens,
        ..fields
    })
}

/// The fields with what the tokens give to the slots, each token to one slot.
pub fn read_slots<'s, 't>(
    slots: &[Slot],
    tokens: &'t [Token<'s>],
    fields: Fields<'s, 't>,
) -> Result<Fields<'s, 't>, What>
    ensures value { seen fields_seen result ≡ read_slots slots.now (map token_of tokens.now) (fields_seen fields.entry) }
    ensures bulk { IfOk result (λ f. bulk (fields_seen f) ≤ bulk (fields_seen fields.entry) + spans (map token_of tokens.now)) }
{
    let Some((slot, other_slots)) = slots.split_first() else {
        return if tokens.is_empty() {
            Ok(fields)
        } else {
            Err(What::Form)
        };
    };
    if let Slot::Values(below, above, labels) = *slot
        && other_slots.is_empty()
    {
        return read_values(below, above, labels, tokens, fields);
    }
    let Some((token, other_tokens)) = tokens.split_first() else {
        return Err(What::Form)
    };
    match read_slot(*slot, token, fields) {
        Ok(more) => read_slots(other_slots, other_tokens, more),
        Err(what) => match read_slots(other_slots, other_tokens, fields) {
            Ok(_) => Err(what),
            Err(other) => Err(worst(what, other)),
        },
    }
}
