ghost use Rattle.std.specs.Prelude.{◌≡◌, ◌≤◌, ◌∷◌, ℕ, List, IfOk, IfErr, map, string_bytes, vec_len, length};
ghost use Rattle.obj_edges.specs.Told.{Asks};
ghost use Rattle.host_top.specs.Texts.{Tells, AreRead, max_file_len};
ghost use Rattle.host_top.specs.Refusals.{IsFileRefused, IsRefused};

use crate::refusal::Refusal;
use crate::words::{FileNames, file_names};
use obj_edges::{FileError, Files};
use std::alloc::Global;

/// The texts of the two files of a run, and the name of the first.
#[derive(Debug, Drop)]
pub(crate) struct Texts<'a> {
    pub names: FileNames<'a>,
    pub class: Vec<u8>,
    pub script: Vec<u8>,
}

fn read_file<'a, F: Files>(
    alloc: Global,
    files: &mut F,
    name: &'a str,
) -> Result<Vec<u8>, Refusal<'a>>
    ensures told { IfOk result (λ bytes. Tells (F.contents files.old) name.now bytes.items) }
    ensures short { IfOk result (λ bytes. vec_len bytes ≤ max_file_len) }
    ensures asks { IfOk result (λ bytes. Asks (F.asked files.old) (F.asked files.new) name.now) }
    ensures refused { IfErr result (IsFileRefused (F.contents files.old) (F.asked files.old) (F.asked files.new) (F.faults files.old) (F.faults files.new) name.now) }
    ensures same { (other : List ℕ) → F.contents files.new other ≡ F.contents files.old other }
    ensures never_falls { F.faults files.old ≤ F.faults files.new }
{
    match files.read(alloc, name) {
        Ok(bytes) => Ok(bytes),
        Err(FileError::Failed) => Err(Refusal::NotRead(name)),
        Err(FileError::TooLong) => Err(Refusal::TooLong(name)),
        Err(FileError::NoMemory) => Err(Refusal::Memory),
    }
}

/// The texts that the words of a run name, each file read once and in order.
pub(crate) fn read_texts<'a, F: Files>(
    alloc: Global,
    words: &'a [String],
    files: &mut F,
) -> Result<Texts<'a>, Refusal<'a>>
    ensures read { IfOk result (λ texts. AreRead (map string_bytes words.now) (F.contents files.old) (F.asked files.old) (F.asked files.new) (record { names = record { class = texts.names.class.now; script = texts.names.script.now }; class_text = texts.class.items; script_text = texts.script.items })) }
    ensures refused { IfErr result (IsRefused (map string_bytes words.now) (F.contents files.old) (F.asked files.old) (F.asked files.new) (F.faults files.old) (F.faults files.new)) }
    ensures never_falls { F.faults files.old ≤ F.faults files.new }
{
    let Some(names) = file_names(words) else {
        return Err(Refusal::BadWords);
    };
    let class = read_file(alloc, files, names.class)?;
    let script = read_file(alloc, files, names.script)?;
    Ok(Texts {
        names,
        class,
        script,
    })
}
