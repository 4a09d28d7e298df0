ghost use Rattle.std.specs.Prelude.{◌≡◌, ◌<◌, ◌^◌, ◌+◌, ℕ, List, Some, None, IfOk, OnOk};
ghost use Rattle.std.specs.Option.{option_map};
ghost use Rattle.std.specs.Str.{bytes_eq};
ghost use Rattle.first_path.specs.Meaning.{property_of};

use obj_kinds::Text;

/// The place of a property in its class, from 0.
pub(crate) fn place_in(props: &[Text], name: &[u8]) -> Option<usize>
    ensures { result ≡ property_of props.now name.now }
{
    for (at, prop) in props.iter().enumerate() {
        if prop.as_slice() == name {
            return Some(at);
        }
    }
    None
}
