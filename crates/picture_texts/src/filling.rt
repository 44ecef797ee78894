//! Texts with numbers in them: in a form, the letters from A on stand for numbers.

ghost use Rattle.std.specs.Prelude.{◌≡◌, ◌++◌, OnOk};
ghost use Rattle.std.specs.List.{flat_map};
ghost use Rattle.picture_texts.specs.Filling.{filled_letter, filled};

use itoa::Buffer;
use std::alloc::AllocError;

fn push_letter(out: &mut Vec<u8>, letter: u8, numbers: &[u64]) -> Result<(), AllocError>
    ensures { OnOk result (out.new.items ≡ out.old.items ++ filled_letter numbers.now letter) }
{
    if letter < b'A' {
        return Ok(out.push(letter)?);
    }
    match numbers.get((letter - b'A') as usize) {
        Some(number) => out.extend_from_slice(Buffer::new().format(*number).as_bytes()),
        None => Ok(out.push(letter)?),
    }
}

/// Appends a form, with its numbers in the places of their letters.
#[tactic(auto, unfolding(crate::specs::Filling::filled))]
pub(crate) fn push_filled(out: &mut Vec<u8>, form: &[u8], numbers: &[u64]) -> Result<(), AllocError>
    ensures { OnOk result (out.new.items ≡ out.old.items ++ filled numbers.now form.now) }
{
    for letter in form {
        push_letter(out, *letter, numbers)?;
    }
    Ok(())
}
