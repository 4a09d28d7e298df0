//! The text of a class file under way.

use anyhow::Result;
use std::alloc::Global;
use std::mem;

/// A class file that is being put together.
#[derive(Drop)]
pub struct Draft {
    text: String,
    alloc: Global,
}

impl Draft {
    /// A text without a byte.
    pub fn new(alloc: Global) -> Draft {
        Draft {
            text: String::new(alloc),
            alloc,
        }
    }

    /// The text so far, which begins anew.
    pub fn take(&mut self) -> String {
        mem::replace(&mut self.text, String::new(self.alloc))
    }

    fn put_line(&mut self, line: &str) -> Result<()> {
        self.text.push_str(line)?;
        self.text.push('\n')?;
        Ok(())
    }

    // The line, with the number in place of each `#`.
    fn put_numbered(&mut self, line: &str, number: u32) -> Result<()> {
        for letter in line.chars() {
            if letter == '#' {
                let digits = number.to_string(self.alloc)?;
                self.text.push_str(digits.as_str())?;
            } else {
                self.text.push(letter)?;
            }
        }
        self.text.push('\n')?;
        Ok(())
    }

    fn put_many(&mut self, from: u32, to: u32, line: &str) -> Result<()> {
        for number in from..to {
            self.put_numbered(line, number)?;
        }
        Ok(())
    }

    fn put_again(&mut self, count: u32, piece: &str) -> Result<()> {
        for _ in 0..count {
            self.text.push_str(piece)?;
        }
        Ok(())
    }
}

// The number that a word writes, 0 where it writes none.
fn number_of(word: &str) -> u32 {
    match word.parse::<u32>() {
        Ok(number) => number,
        Err(_) => 0,
    }
}

fn lines_from(draft: &mut Draft, words: &str) -> Result<()> {
    if let Some((from, rest)) = words.split_once(' ') {
        if let Some((to, line)) = rest.split_once(' ') {
            draft.put_many(number_of(from), number_of(to), line)?;
        }
    }
    Ok(())
}

/// Puts what one line of a case stands for.
pub fn directive(draft: &mut Draft, line: &str) -> Result<()> {
    if let Some(words) = line.strip_prefix("@ ") {
        return lines_from(draft, words);
    }
    if let Some(words) = line.strip_prefix("~ ") {
        if let Some((count, piece)) = words.split_once(' ') {
            draft.put_again(number_of(count), piece)?;
        }
        return Ok(());
    }
    draft.put_line(line)
}
