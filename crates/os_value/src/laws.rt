ghost use Rattle.std.specs.Prelude.{◌≡◌, ◌≢◌, ◌↔◌, ℕ, suc, ◌+◌, ◌<◌, ◌≤◌, ℤ, pos, ◌+ℤ◌, ◌-ℤ◌, ◌*ℤ◌, ◌≤ℤ◌, ◌<ℤ◌, int_div, unsigned_abs, true, false, List, ◌++◌, length, take, drop, Some, None, Ok};
ghost use Rattle.obj_kinds.specs.declared.value.Value.{Value};
ghost use Rattle.os_value.specs.Numbers.{floor, rest};
ghost use Rattle.os_value.specs.Comparisons.{is_list, equal, is_behind, place_of};
ghost use Rattle.os_value.specs.Places.{part};
ghost use Rattle.os_value.specs.Pieces.{pieces, joined_by};
ghost use Rattle.os_value.specs.Lists.{built, count_of};
ghost use Rattle.obj_kinds.specs.Values.{as_value};

/// A number is the floor of its quotient times the divisor and the rest of `#`, which is smaller
/// than the divisor and has its sign or is 0. A quotient that is cut leaves less than the divisor
/// too, with the sign of the number or 0.
pub fn quotients_and_rests()
    ensures parts { (a b : ℤ) → floor a b *ℤ b +ℤ rest a b ≡ a }
    ensures above { (a b : ℤ) → pos 0 <ℤ b → (pos 0 ≤ℤ rest a b) × (rest a b <ℤ b) }
    ensures below { (a b : ℤ) → b <ℤ pos 0 → (b <ℤ rest a b) × (rest a b ≤ℤ pos 0) }
    ensures cut { (a b : ℤ) → 0 < unsigned_abs b → unsigned_abs (a -ℤ int_div a b *ℤ b) < unsigned_abs b }
    ensures cut_above { (a b : ℤ) → pos 0 ≤ℤ a → pos 0 ≤ℤ (a -ℤ int_div a b *ℤ b) }
    ensures cut_below { (a b : ℤ) → a ≤ℤ pos 0 → (a -ℤ int_div a b *ℤ b) ≤ℤ pos 0 }
{}

/// Two texts, or two lists, are told equal exactly where they are.
pub fn equal_values()
    ensures { (a b : Value) → is_list a ≡ is_list b → (equal a b ≡ Ok true) ↔ (a ≡ b) }
{}

/// `]` is a strict order of texts: none is behind itself, what is behind a text is behind all
/// before that one, and of two texts one is behind the other.
pub fn texts_in_order()
    ensures not_itself { (s : List ℕ) → is_behind s s ≡ false }
    ensures behind_both { (r s t : List ℕ) → is_behind r s ≡ true → is_behind s t ≡ true → is_behind r t ≡ true }
    ensures one_of_two { (s t : List ℕ) → s ≢ t → is_behind s t ≡ false → is_behind t s ≡ true }
{}

/// `$EXTRACT` of all places is the text, and that of places beside one another joins up.
pub fn parts_of_texts()
    ensures all { (text : List ℕ) → part (pos 1) (pos (length text)) text ≡ text }
    ensures beside { (text : List ℕ) (i j k : ℕ) → i ≤ j + 1 → j ≤ k → part (pos i) (pos j) text ++ part (pos (suc j)) (pos k) text ≡ part (pos i) (pos k) text }
{}

/// What a search answers is the least place at which the text that is sought stands; where it answers none, there is no such
/// place.
pub fn finds_are_least()
    ensures stands { (text sought : List ℕ) (at : ℕ) → place_of text sought ≡ Some at → take (length sought) (drop at text) ≡ sought }
    ensures least { (text sought : List ℕ) (at k : ℕ) → 0 < length sought → place_of text sought ≡ Some at → k < at → take (length sought) (drop k text) ≢ sought }
    ensures none { (text sought : List ℕ) (k : ℕ) → 0 < length sought → place_of text sought ≡ None → take (length sought) (drop k text) ≢ sought }
{}

/// All pieces of a text, with the delimiter between them, are the text.
pub fn pieces_of_texts()
    ensures { (delimiter text : List ℕ) → 0 < length delimiter → joined_by delimiter (pieces delimiter text) ≡ text }
{}

/// A list that is built has as many items as it was built of.
pub fn lists_of_items()
    ensures { (items : List Value) (list : Value) → built items ≡ Ok list → count_of list ≡ Ok (as_value (pos (length items))) }
{}
