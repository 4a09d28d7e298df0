ghost use Rattle.std.specs.Prelude.{ℕ, ◌≡◌, ◌==◌, ◌≢◌, ◌+◌, ◌-◌, ◌<◌, ◌≤◌, ◌^◌, ◌↔◌, ◌++◌, ◌∷◌, [], true, false, cond, Some, None, List, IfSome, IfNone, IfOk, IfErr, OnOk, OnErr, IsErr, IsSome, OnSome};
ghost use Rattle.std.specs.Map.{keys_of, lookup, remove_entry, set_value};
ghost use Rattle.std.specs.BTreeMap.{is_at};
ghost use Rattle.std.specs.BinaryHeap.{heap_items, heap_len, heap_capacity, KeepsHeap};
ghost use Rattle.std.specs.List.{AllByRecursion};
ghost use Rattle.std.specs.List.Sorted.{IsStrictlySortedBy, IsPermutation};
ghost use Rattle.std.specs.Ordering.{nat_cmp};
ghost use Rattle.std.specs.declared.cmp.Reverse.{Reverse};
ghost use Rattle.oref_table.specs.Entries.{is_uncounted, lowered};
ghost use Rattle.oref_table.specs.Memory.{first_that, without_first};
ghost use Rattle.oref_table.specs.Rows.{AreRows, AwaitsRelease, counted_rows, entries_in, is_idle, least_first, waits};

use crate::obj::{Entry, Obj};
use std::cmp::Reverse;
use std::collections::{BTreeMap, BinaryHeap};

/// The objects by their numbers.
pub type ByNumber = BTreeMap<u64, Obj>;

/// Numbers of objects that may be without a holder, least first.
pub type Waiting = BinaryHeap<Reverse<u64>>;

/// Counts one holder less of an object, and answers whether that was the last one.
fn lower_count(obj: &mut Obj) -> bool
    ensures obj { obj.new ≡ record obj.old { count = obj.old.count - 1 } }
    ensures last { result ≡ (obj.old.count == 1) }
{
    let last = obj.count == 1;
    obj.count = obj.count.saturating_sub(1);
    last
}

/// Counts one holder less of the object with the number, if there is one, and answers whether that was the last one.
pub fn count_off(rows: &mut ByNumber, number: u64) -> bool
    requires { IsStrictlySortedBy nat_cmp (keys_of rows.old.entries) }
    ensures rows { entries_in rows.new.entries ≡ lowered (number ∷ []) (entries_in rows.old.entries) }
    ensures rising { IsStrictlySortedBy nat_cmp (keys_of rows.new.entries) }
    ensures counted { counted_rows rows.new.entries + cond result 1 0 ≡ counted_rows rows.old.entries }
    ensures awaited { (waiting : List (Reverse ℕ)) → AllByRecursion (AwaitsRelease waiting) rows.old.entries → (result ≡ true → waits waiting number ≡ true) → AllByRecursion (AwaitsRelease waiting) rows.new.entries }
{
    match rows.get_mut(&number) {
        None => false,
        Some(obj) => lower_count(obj),
    }
}

/// Notes an object that is to be released, in room that was taken before.
pub fn await_release(waiting: &mut Waiting, number: u64)
    requires { heap_len waiting.old < heap_capacity waiting.old }
    ensures items { IsPermutation (record { 0 = number } ∷ heap_items waiting.old) (heap_items waiting.new) }
    ensures order { KeepsHeap least_first (heap_items waiting.old) (heap_items waiting.new) }
    ensures len { heap_len waiting.new ≡ heap_len waiting.old + 1 }
    ensures room { heap_capacity waiting.old ≤ heap_capacity waiting.new }
{
    match waiting.push(Reverse(number)) {
        Ok(()) => {}
        Err(_) => {}
    }
}

/// Whether the object with the number is there, and has no holder.
fn has_no_holder(rows: &ByNumber, number: u64) -> bool
    ensures { result ≡ is_idle (lookup (is_at (nat_cmp number)) rows.now.entries) }
{
    match rows.get(&number) {
        None => false,
        Some(obj) => obj.count == 0,
    }
}

/// Takes the object with the number out, if it is there and has no holder.
fn take_idle(rows: &mut ByNumber, number: u64) -> Option<Obj>
    requires { IsStrictlySortedBy nat_cmp (keys_of rows.old.entries) }
    ensures some { IfSome result (λ obj. (lookup (is_at (nat_cmp number)) rows.old.entries ≡ Some obj) × (obj.count ≡ 0) × (rows.new.entries ≡ remove_entry (is_at (nat_cmp number)) rows.old.entries)) }
    ensures none { IfNone result ((rows.new.entries ≡ rows.old.entries) × (is_idle (lookup (is_at (nat_cmp number)) rows.old.entries) ≡ false)) }
    ensures rising { IsStrictlySortedBy nat_cmp (keys_of rows.new.entries) }
{
    if !has_no_holder(rows, number) {
        return None;
    }
    rows.remove(&number)
}

/// Takes the object of least number that has no holder out.
pub fn take_first(rows: &mut ByNumber, waiting: &mut Waiting) -> Option<Entry>
    requires { AreRows rows.old.entries (heap_items waiting.old) (heap_len waiting.old) (heap_capacity waiting.old) }
    ensures some { IfSome result (λ e. (first_that is_uncounted (entries_in rows.old.entries) ≡ Some e) × (entries_in rows.new.entries ≡ without_first is_uncounted (entries_in rows.old.entries))) }
    ensures none { IfNone result ((rows.new.entries ≡ rows.old.entries) × (first_that is_uncounted (entries_in rows.old.entries) ≡ None)) }
    ensures rows { AreRows rows.new.entries (heap_items waiting.new) (heap_len waiting.new) (heap_capacity waiting.new) }
{
    while let Some(Reverse(number)) = waiting.pop() {
        if let Some(obj) = take_idle(rows, number) {
            return Some(Entry { number, obj });
        }
    }
    None
}
