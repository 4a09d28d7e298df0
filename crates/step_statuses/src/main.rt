//! Runs the host on one line of words after another, with real files and standard output, and prints the status of each.
//! Its input has the words; a line that begins with `#` is a title. Behind each status it prints what stands in `1.out`.
#![tactic(auto)]

use anyhow::Result;
use std::fs;
use step_program::run_on;

fn split_words(rt: &HostRuntime, line: &str) -> Result<Vec<String>> {
    let mut words = Vec::new(rt.alloc());
    for word in line.split(' ') {
        if !word.is_empty() {
            words.push(word.to_string(rt.alloc())?)?;
        }
    }
    Ok(words)
}

fn run_line(rt: &HostRuntime, line: &str) -> Result<()> {
    let _missing = fs::remove_file(rt, "1.out");
    let words = split_words(rt, line)?;
    match run_on(rt, words.as_slice()) {
        Ok(status) => println!(rt; "status {status}")?,
        Err(_) => println!(rt; "no memory")?,
    }
    if let Ok(told) = fs::read_to_string(rt, "1.out") {
        let told = told.trim();
        println!(rt; "1.out: {told}")?;
    }
    Ok(())
}

fn main(rt: HostRuntime) -> Result<()> {
    for line in rt.lines(rt.alloc()) {
        let line = line?;
        println!(rt; "> {line}")?;
        if !line.starts_with('#') {
            run_line(&rt, line.as_str())?;
        }
    }
    Ok(())
}
