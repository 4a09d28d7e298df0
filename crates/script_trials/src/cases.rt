//! Files of cases.

ghost use Rattle.std.specs.Prelude.{◌≡◌, ◌<◌, ◌≤◌, ◌+◌, length, true};

use crate::failure::Failure;
use crate::show::show_case;
use obj_kinds::Text;
use std::alloc::Global;

/// What a line that names a case begins with.
const MARK: &[u8] = b"====";

fn is_marked(z: &[u8]) -> bool
    ensures { result ≡ true → 4 ≤ length z.now }
{
    z.len() >= MARK.len() && &z[..MARK.len()] == MARK
}

/// The first line feed from `at` on, or the end.
fn line_end(z: &[u8], at: usize) -> usize
    requires { at ≤ length z.now }
    ensures { (at ≤ result) × (result ≤ length z.now) }
{
    let mut end = at;
    while end < z.len() && z[end] != b'\n' {
        end += 1;
    }
    end
}

/// The line feed from `at` on behind which a case is named, or the end.
fn case_end(z: &[u8], at: usize) -> usize
    requires { at ≤ length z.now }
    ensures { (at ≤ result) × (result ≤ length z.now) }
{
    let mut end = line_end(z, at);
    while end < z.len() && !is_marked(&z[end + 1..]) {
        end = line_end(z, end + 1);
    }
    end
}

/// What stands behind the byte there, or nothing.
fn behind(z: &[u8], at: usize) -> &[u8]
    requires { at ≤ length z.now }
    ensures within { length result.now ≤ length z.now }
    ensures shorter { 0 < length z.now → length result.now < length z.now }
{
    if at < z.len() { &z[at + 1..] } else { &[] }
}

/// Each script of the text stands behind a line that names it.
fn show_named(alloc: Global, text: &[u8], out: &mut Text) -> Result<(), Failure> {
    let mut rest = text;
    while is_marked(rest) {
        let head = line_end(rest, MARK.len());
        if head == MARK.len() {
            return Ok(());
        }
        let end = case_end(rest, head);
        let name = &rest[MARK.len() + 1..head];
        let file = if head < end {
            &rest[head + 1..end]
        } else {
            &[]
        };
        show_case(alloc, name, file, out)?;
        rest = behind(rest, end);
    }
    Ok(())
}

/// Runs each script of a file of cases, or the one script that any other file is, and prints what is seen of it.
pub fn show_scripts(
    alloc: Global,
    name: &[u8],
    text: &[u8],
    out: &mut Text,
) -> Result<(), Failure> {
    if is_marked(text) {
        show_named(alloc, text, out)
    } else {
        show_case(alloc, name, text, out)
    }
}
