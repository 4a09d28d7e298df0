//! Trials of the values that all layers speak of, at their edges. Each line of the input is a row: a
//! word that says what is tried, and what it is tried with. A row is printed with its answer.
#![tactic(auto)]

mod ids;
mod names;
mod nodes;
mod ops;
mod subs;
mod values;
mod words;

use crate::ids::{answer_id, answer_numbers, answer_order};
use crate::names::{answer_cause, answer_error};
use crate::nodes::{answer_copy, answer_name, answer_node, answer_print, answer_rise};
use crate::ops::{answer_op, answer_reply};
use crate::subs::{answer_byte, answer_leading, answer_num, answer_quote, answer_str, answer_sub};
use crate::values::{answer_deep, answer_list, answer_same, answer_text};
use crate::words::{Word, word_of};
use obj_kinds::{NoMemory, Text};
use std::alloc::Global;
use std::process::ExitCode;

/// What a row is answered.
fn answer(alloc: Global, row: &[u8]) -> Result<Text, NoMemory> {
    let (word, rest) = word_of(row);
    match word {
        Word::Sub => answer_sub(alloc, rest),
        Word::Str => answer_str(alloc, rest),
        Word::Num => answer_num(alloc, rest),
        Word::Byte => answer_byte(alloc, rest),
        Word::Name => answer_name(alloc, rest),
        Word::Node => answer_node(alloc, rest),
        Word::Rise => answer_rise(alloc, rest),
        Word::Id => answer_id(alloc, rest),
        Word::Numbers => answer_numbers(alloc, rest),
        Word::Order => answer_order(alloc, rest),
        Word::Text => answer_text(alloc, rest),
        Word::List => answer_list(alloc, rest),
        Word::Deep => answer_deep(alloc, rest),
        Word::Same => answer_same(alloc, rest),
        Word::Op => answer_op(alloc, rest),
        Word::Reply => answer_reply(alloc, rest),
        Word::Error => answer_error(alloc, rest),
        Word::Cause => answer_cause(alloc, rest),
        Word::Leading => answer_leading(alloc, rest),
        Word::Print => answer_print(alloc, rest),
        Word::Quote => answer_quote(alloc, rest),
        Word::Copy => answer_copy(alloc, rest),
        Word::Other => Text::from_slice(alloc, b"no such row"),
    }
}

fn print_row(rt: &HostRuntime, row: &str) -> bool {
    let Ok(answer) = answer(rt.alloc(), row.as_bytes()) else {
        return false;
    };
    let Ok(text) = str::from_utf8(answer.as_slice()) else {
        return false;
    };
    println!(rt; "{row}: {text}").is_ok()
}

fn main(rt: HostRuntime) -> ExitCode {
    for row in rt.lines(rt.alloc()) {
        let Ok(row) = row else {
            return ExitCode::FAILURE;
        };
        if !print_row(&rt, row.as_str()) {
            return ExitCode::FAILURE;
        }
    }
    ExitCode::SUCCESS
}
