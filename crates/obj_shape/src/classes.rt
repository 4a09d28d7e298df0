ghost use Rattle.std.specs.Prelude.{◌≡◌};
ghost use Rattle.schema_kinds.specs.Classes.{class_of, props_of as props_in};

use obj_kinds::ClassName;
use schema_kinds::{Prop, Schema};

/// The properties of the class; none where the schema has no class of that name.
pub fn props_of<'a>(schema: &'a Schema, class: &ClassName) -> &'a [Prop]
    ensures { result.now ≡ props_in (class_of schema.now class.now) }
{
    match schema.class(class) {
        Some(class) => class.props.as_slice(),
        None => &[],
    }
}
