//! What a line says: a label and a statement, by the rows of the table.

ghost use Rattle.std.specs.Prelude.{◌≡◌, ℕ, ◌+◌, ◌<◌, ◌≤◌, ◌∷◌, length, map, IfOk, IfSome};
ghost use Rattle.std.specs.Option.{option_map};
ghost use Rattle.asm_words.specs.Tokens.{token_of, tokens_of, spans};
ghost use Rattle.asm_text.specs.Statements.{filled_seen, fields_seen, bulk};
ghost use Rattle.asm_text.specs.Slots.{seen};
ghost use Rattle.asm_text.specs.Rows.{row_of, instructions, pseudo_instructions, directives};
ghost use Rattle.asm_text.specs.Lines.{read_row, read_rows, read_tables, label_at, statement_at, line_at, line_said, line_seen, HasSound};

use crate::rows::{Row, directives, instructions, pseudo_instructions};
use crate::slots::{What, read_slots};
use crate::statements::{Fields, Filled, Statement, made};
use asm_words::{Token, is_name, tokens};
use basics::NoMemory;
use std::alloc::Global;

/// What a line says.
#[derive(Drop)]
pub struct Line<'s> {
    pub label: Option<&'s [u8]>,
    pub statement: Option<Statement<'s>>,
}

/// What a line says, or what is wrong with it.
pub type Reading<'s> = Result<Line<'s>, What>;

/// What the tokens say in the form of a row.
fn read_row<'s, 't>(row: Row, tokens: &'t [Token<'s>]) -> Result<Filled<'s, 't>, What>
    ensures value { seen filled_seen result ≡ read_row (row_of row) (map token_of tokens.now) }
    ensures bulk { IfOk result (λ s. bulk (fields_seen s.fields) ≤ spans (map token_of tokens.now)) }
{
    let none = Fields {
        rd: 0,
        rs1: 0,
        rs2: 0,
        number: 0,
        label: &[],
        text: &[],
        values: &tokens[..0],
    };
    let fields = read_slots(row.slots, tokens, none)?;
    Ok(Filled {
        make: row.make,
        fields,
    })
}

/// What the tokens behind a statement's name say: by the first row of that name whose form they have.
fn read_rows<'s, 't>(
    rows: &[Row],
    name: &[u8],
    tokens: &'t [Token<'s>],
) -> Option<Result<Filled<'s, 't>, What>>
    ensures value { option_map (seen filled_seen) result ≡ read_rows (map row_of rows.now) name.now (map token_of tokens.now) }
    ensures bulk { IfSome result (λ r. IfOk r (λ s. bulk (fields_seen s.fields) ≤ spans (map token_of tokens.now))) }
{
    let mut misfit = false;
    for row in rows {
        if row.name == name {
            match read_row(*row, tokens) {
                Err(What::Form) => misfit = true,
                read => return Some(read),
            }
        }
    }
    if misfit { Some(Err(What::Form)) } else { None }
}

/// The same by all rows.
fn read_tables<'s, 't>(name: &[u8], tokens: &'t [Token<'s>]) -> Option<Result<Filled<'s, 't>, What>>
    ensures value { option_map (seen filled_seen) result ≡ read_tables name.now (map token_of tokens.now) }
    ensures bulk { IfSome result (λ r. IfOk r (λ s. bulk (fields_seen s.fields) ≤ spans (map token_of tokens.now))) }
{
    if let Some(read) = read_rows(instructions(), name, tokens) {
        return Some(read);
    }
    if let Some(read) = read_rows(pseudo_instructions(), name, tokens) {
        return Some(read);
    }
    read_rows(directives(), name, tokens)
}

/// The label in front, and the tokens behind it.
fn label_at<'s, 't>(tokens: &'t [Token<'s>]) -> (Option<&'s [u8]>, &'t [Token<'s>])
    ensures value { (option_map (λ x. x.now) result.0, map token_of result.1.now) ≡ label_at (map token_of tokens.now) }
    ensures bulk { spans (map token_of result.1.now) ≤ spans (map token_of tokens.now) }
{
    let Some((Token::Word(word), after)) = tokens.split_first() else {
        return (None, tokens)
    };
    let Some((Token::Mark(b':'), after)) = after.split_first() else {
        return (None, tokens)
    };
    (Some(word), after)
}

/// The statement that the tokens are.
fn statement_at<'s, 't>(tokens: &'t [Token<'s>]) -> Result<Option<Filled<'s, 't>>, What>
    ensures value { seen (option_map filled_seen) result ≡ statement_at (map token_of tokens.now) }
    ensures bulk { IfOk result (λ o. IfSome o (λ s. bulk (fields_seen s.fields) ≤ spans (map token_of tokens.now))) }
{
    let Some((first, after)) = tokens.split_first() else {
        return Ok(None)
    };
    let Token::Word(word) = first else {
        return Err(What::Form)
    };
    if !is_name(word) {
        return Err(What::Form);
    }
    match read_tables(word, after) {
        Some(read) => Ok(Some(read?)),
        None => Err(What::Name),
    }
}

/// What the tokens of a line say.
fn line_at<'s>(alloc: Global, tokens: &[Token<'s>]) -> Result<Reading<'s>, NoMemory>
    ensures value { IfOk result (λ r. seen line_seen r ≡ line_at (map token_of tokens.now)) }
    ensures sound { IfOk result (λ r. HasSound (spans (map token_of tokens.now)) (seen line_seen r)) }
{
    let (label, after) = label_at(tokens);
    if let Some(name) = label
        && !is_name(name)
    {
        return Ok(Err(What::Form));
    }
    match statement_at(after) {
        Err(what) => Ok(Err(what)),
        Ok(None) => Ok(Ok(Line {
            label,
            statement: None,
        })),
        Ok(Some(filled)) => {
            let statement = made(alloc, filled)?;
            Ok(Ok(Line {
                label,
                statement: Some(statement),
            }))
        }
    }
}

/// What a line says, or what is wrong with it.
#[tactic(auto, unfolding(crate::specs::Lines::line_said))]
pub fn read_line<'s>(alloc: Global, line: &'s [u8]) -> Result<Reading<'s>, NoMemory>
    ensures exact { IfOk result (λ r. seen line_seen r ≡ line_said line.now) }

    // Its instruction fits a word, and its data is no longer than the line.
    ensures sound { IfOk result (λ r. HasSound (length line.now) (seen line_seen r)) }
{
    let tokens = tokens(alloc, line)?;
    line_at(alloc, &tokens)
}
