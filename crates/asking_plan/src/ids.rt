ghost use Rattle.std.specs.Prelude.{◌≡◌, true};
ghost use Rattle.std.specs.Option.{option_and_then};
ghost use Rattle.obj_kinds.specs.declared.sub.Sub.TheVariants.{Num};
ghost use Rattle.obj_kinds.specs.IdReading.{id_in};
ghost use Rattle.obj_kinds.specs.Limits.{is_legal_sub};
ghost use Rattle.record_layout.specs.Items.{if_long};
ghost use Rattle.storage_map.specs.Worlds.{id_of_sub};

use obj_kinds::{Id, Sub};

// The id that a number is.
#[tactic(auto, unfolding(obj_kinds::specs::Limits::is_legal_sub))]
fn id_of_number(number: i64) -> Option<Id>
    requires { is_legal_sub (Num number) ≡ true }
    ensures { result ≡ option_and_then (if_long 1) (id_of_sub (Num number)) }
{
    if number < 1 {
        return None;
    }
    Some(Id::new(number.unsigned_abs()))
}

// The id of one number that a text is.
#[tactic(auto, using(crate::proofs::IdLaws::text_found, crate::proofs::IdLaws::text_none))]
fn id_of_text(text: &[u8]) -> Option<Id>
    ensures { result ≡ option_and_then (if_long 1) (id_in text.now) }
{
    match Id::from_text(text) {
        None => None,
        Some(id) => { if id.len() == 1 { Some(id) } else { None } }
    }
}

/// The id of an extent that a subscript is. It takes no memory.
pub fn id_below(sub: &Sub) -> Option<Id>
    requires { is_legal_sub sub.now ≡ true }
    ensures { result ≡ option_and_then (if_long 1) (id_of_sub sub.now) }
{
    match sub {
        Sub::Num(number) => id_of_number(*number),
        Sub::Str(text) => id_of_text(text.as_slice()),
    }
}
