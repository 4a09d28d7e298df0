//! Lines of a file of rows.

/// Which call of the outside fails.
#[derive(Clone, Copy)]
pub enum Call {
    Read,
    Put,
    Report,
    Other,
}

/// What a line says.
#[derive(Clone, Copy)]
pub enum Line<'a> {
    /// A row begins.
    Title(&'a str),
    /// The words of the run.
    Words(&'a str),
    /// This call is to fail, counted from 1.
    Fail(Call, u64),
    /// The lines that follow stand in this file.
    File(&'a str),
    /// The file has this text, and no line feed behind it.
    Brief(&'a str, &'a str),
    /// So many lines, each with its number where `@` stands.
    Times(u64, &'a str),
    /// The open file ends without its last line feed.
    Cut,
    /// A line of the file, or a remark where no file has begun.
    Plain(&'a str),
}

/// What stands before the first blank, and what stands behind it.
fn split_blank(text: &str) -> (&str, &str) {
    match text.split_once(' ') {
        Some(parts) => parts,
        None => (text, ""),
    }
}

fn number_in(word: &str) -> u64 {
    word.parse::<u64>().unwrap_or(0)
}

fn call_of(word: &str) -> Call {
    match word {
        "read" => Call::Read,
        "put" => Call::Put,
        "report" => Call::Report,
        _ => Call::Other,
    }
}

/// What the line says.
pub fn line_of(line: &str) -> Line<'_> {
    let (mark, rest) = split_blank(line);
    let (word, more) = split_blank(rest);
    match mark {
        "====" => Line::Title(rest),
        "++++" => Line::Times(number_in(word), more),
        "----" => match word {
            "words" => Line::Words(more),
            "file" => Line::File(more),
            "cut" => Line::Cut,
            "text" => {
                let (name, text) = split_blank(more);
                Line::Brief(name, text)
            }
            _ => Line::Fail(call_of(word), number_in(more)),
        },
        _ => Line::Plain(line),
    }
}
