use crate::values::{split_at_byte, values_in};
use crate::words::{Word, word_of};
use obj_kinds::{NoMemory, Value, Values};
use os_value::{
    ValueError, fn_ascii, fn_char, fn_extract, fn_find, fn_length, fn_list, fn_list_build,
    fn_list_length, fn_piece, op_add, op_and, op_at_least, op_at_most, op_contains, op_equal,
    op_follows, op_greater, op_join, op_less, op_minus, op_modulo, op_multiply, op_not, op_or,
    op_plus, op_quotient, op_subtract, truth,
};
use std::alloc::Global;

/// What a row is answered.
pub enum Answer {
    Got(Result<Value, ValueError>),
    Truth(Result<bool, ValueError>),
    NoRow,
}

fn number_row(alloc: Global, word: Word, a: &Value, b: &Value) -> Answer {
    match word {
        Word::Add => Answer::Got(op_add(alloc, a, b)),
        Word::Subtract => Answer::Got(op_subtract(alloc, a, b)),
        Word::Multiply => Answer::Got(op_multiply(alloc, a, b)),
        Word::Quotient => Answer::Got(op_quotient(alloc, a, b)),
        Word::Modulo => Answer::Got(op_modulo(alloc, a, b)),
        Word::Less => Answer::Got(op_less(alloc, a, b)),
        Word::Greater => Answer::Got(op_greater(alloc, a, b)),
        Word::AtMost => Answer::Got(op_at_most(alloc, a, b)),
        Word::AtLeast => Answer::Got(op_at_least(alloc, a, b)),
        _ => Answer::NoRow,
    }
}

fn text_row(alloc: Global, word: Word, a: &Value, b: &Value) -> Answer {
    match word {
        Word::Equal => Answer::Got(op_equal(alloc, a, b)),
        Word::Contains => Answer::Got(op_contains(alloc, a, b)),
        Word::Follows => Answer::Got(op_follows(alloc, a, b)),
        Word::And => Answer::Got(op_and(alloc, a, b)),
        Word::Or => Answer::Got(op_or(alloc, a, b)),
        Word::Join => Answer::Got(op_join(alloc, a, b)),
        _ => number_row(alloc, word, a, b),
    }
}

fn sign_row(alloc: Global, word: Word, a: &Value) -> Answer {
    match word {
        Word::Plus => Answer::Got(op_plus(alloc, a)),
        Word::Minus => Answer::Got(op_minus(alloc, a)),
        Word::Not => Answer::Got(op_not(alloc, a)),
        Word::Truth => Answer::Truth(truth(a)),
        Word::ListLength => Answer::Got(fn_list_length(alloc, a)),
        _ => Answer::NoRow,
    }
}

fn function_row(
    alloc: Global,
    word: Word,
    a: &Value,
    b: Option<&Value>,
    c: Option<&Value>,
) -> Answer {
    match word {
        Word::Length => Answer::Got(fn_length(alloc, a, b)),
        Word::Extract => Answer::Got(fn_extract(alloc, a, b, c)),
        Word::Ascii => Answer::Got(fn_ascii(alloc, a, b)),
        Word::List => Answer::Got(fn_list(alloc, a, b)),
        Word::Find => match b {
            Some(sought) => Answer::Got(fn_find(alloc, a, sought, c)),
            None => Answer::NoRow,
        },
        _ => match b {
            Some(b) => text_row(alloc, word, a, b),
            None => sign_row(alloc, word, a),
        },
    }
}

fn values_row(alloc: Global, word: Word, values: &Values) -> Answer {
    match word {
        Word::Char => Answer::Got(fn_char(alloc, values)),
        Word::ListBuild => Answer::Got(fn_list_build(alloc, values)),
        Word::Piece => piece_row(alloc, values.as_slice()),
        _ => match values.as_slice().first() {
            Some(a) => function_row(
                alloc,
                word,
                a,
                values.as_slice().get(1),
                values.as_slice().get(2),
            ),
            None => Answer::NoRow,
        },
    }
}

/// A piece has up to four operands, all others three at most.
fn piece_row(alloc: Global, values: &[Value]) -> Answer {
    let Some(text) = values.first() else {
        return Answer::NoRow;
    };
    let Some(delimiter) = values.get(1) else {
        return Answer::NoRow;
    };
    Answer::Got(fn_piece(alloc, text, delimiter, values.get(2), values.get(3)))
}

/// What a row is answered: its word, and then the values.
pub fn answer_row(alloc: Global, row: &[u8]) -> Result<Answer, NoMemory> {
    let (word, rest) = split_at_byte(row, b' ');
    let values = values_in(alloc, rest)?;
    Ok(values_row(alloc, word_of(word), &values))
}
