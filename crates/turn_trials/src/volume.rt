use obj_kinds::{Op, Reply};
use store_core::Entry;

/// Whether the entry is an increment that answered this number.
fn is_increment(entry: &Entry, number: i64) -> bool {
    match (&entry.op, &entry.reply) {
        (Op::Incr(_, _), Reply::Number(is)) => *is == number,
        _ => false,
    }
}

/// How many increments the history begins with, each with a reply one higher than the one before it,
/// if nothing but ends stands behind them.
pub fn increments(history: &[Entry]) -> Option<i64> {
    let mut done = 0i64;
    let mut has_ended = false;
    for entry in history {
        match entry.op {
            Op::End => has_ended = true,
            _ => {
                done = done.saturating_add(1);
                if has_ended || !is_increment(entry, done) {
                    return None;
                }
            }
        }
    }
    Some(done)
}
