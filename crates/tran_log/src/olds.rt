ghost use Rattle.std.specs.Prelude.{◌≡◌, ◌≤◌, [], length, vec_len, vec_capacity, IfOk, IfErr};
ghost use Rattle.tran_log.specs.Levels.{as_olds};

use crate::kept::Olds;
use global_tree::Pairs;
use obj_kinds::NoMemory;
use std::alloc::Global;

/// Moves the pairs behind those that are there.
fn move_pairs(mut pairs: Pairs, mut olds: Olds) -> Olds
    requires empty { olds.items ≡ [] }
    requires room { length pairs ≤ vec_capacity olds }
    ensures { result.items ≡ as_olds pairs }
{
    while let Some(pair) = pairs.pop() {
        let (node, value) = pair;
        match olds.push((node, Some(value))) {
            Ok(()) => {}
            Err(_) => unreachable!(),
        }
    }
    olds.reverse();
    olds
}

/// The taken nodes, each with the value that it had, as [`Log::note`](crate::Log::note) takes
/// them. At a want of memory the pairs come back.
pub fn olds_of(alloc: Global, pairs: Pairs) -> Result<Olds, (Pairs, NoMemory)>
    ensures olds { IfOk result (λ olds. olds.items ≡ as_olds pairs) }
    ensures err { IfErr result (λ e. e.0 ≡ pairs) }
{
    match Vec::with_capacity(alloc, pairs.len()) {
        Ok(olds) => Ok(move_pairs(pairs, olds)),
        Err(_) => Err((pairs, NoMemory)),
    }
}
