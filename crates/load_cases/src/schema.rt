use class_link::link;
use class_reader::read_classes;
use schema_kinds::Schema;
use std::alloc::Global;

/// The longest class file that is read.
const MOST: usize = 1_000_000;

/// The schema of a class file; none where it isn't read or doesn't link.
pub fn schema_of(alloc: Global, text: &[u8]) -> Option<Schema> {
    if text.len() >= MOST {
        return None;
    }
    match read_classes(alloc, text) {
        Ok(trees) => link(alloc, trees).ok(),
        Err(_) => None,
    }
}
