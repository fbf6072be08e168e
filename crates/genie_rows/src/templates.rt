//! Scripts with letters in the place of words and numbers.

use itoa::Buffer;
use std::alloc::AllocError;

/// What a letter of a template stands for.
#[derive(Clone, Copy, Debug, PartialEq, Eq)]
pub enum Field {
    Word(&'static str),
    /// In decimal.
    Number(u32),
}

fn put_field(text: &mut Vec<u8>, field: &Field) -> Result<(), AllocError> {
    match field {
        Field::Word(word) => text.extend_from_slice(word.as_bytes()),
        Field::Number(n) => text.extend_from_slice(Buffer::new().format(*n).as_bytes()),
    }
}

// What a byte stands for, if it is one of the letters.
fn field_of(byte: u8, fields: &[(u8, Field)]) -> Option<Field> {
    for (letter, field) in fields {
        if *letter == byte {
            return Some(*field);
        }
    }
    None
}

/// Appends a template with its letters filled in.
pub fn fill(text: &mut Vec<u8>, template: &str, fields: &[(u8, Field)]) -> Result<(), AllocError> {
    for byte in template.as_bytes() {
        match field_of(*byte, fields) {
            Some(field) => put_field(text, &field)?,
            None => text.push(*byte)?,
        }
    }
    Ok(())
}
