//! Reads a script and prints its code, or that it is none.

use crate::failure::Failure;
use crate::listing::put_code;
use obj_kinds::Text;
use os_compile::code_of;
use os_kinds::Script;
use os_parse::{ScriptError, read_script};
use std::alloc::Global;

/// How many bytes a script of the cases may have.
const MAX_SCRIPT: usize = 64_000_000;

/// The commands of a script, or nothing where the text is none.
pub fn read(alloc: Global, text: &[u8]) -> Result<Option<Script>, Failure> {
    if text.len() > MAX_SCRIPT {
        return Err(Failure::File);
    }
    match read_script(alloc, text, 1, 1) {
        Ok(script) => Ok(Some(script)),
        Err(ScriptError::BadScript { .. }) => Ok(None),
        Err(ScriptError::NoMemory) => Err(Failure::NoMemory),
    }
}

/// Prints the code of a script.
pub fn show_script(alloc: Global, text: &[u8], out: &mut Text) -> Result<(), Failure> {
    let Some(script) = read(alloc, text)? else {
        out.push_slice(b"    no script\n".as_slice())?;
        return Ok(());
    };
    let code = code_of(&script, alloc)?;
    put_code(out, &code)?;
    Ok(())
}
