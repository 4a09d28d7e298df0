//! The names of classes in the bodies of methods.

ghost use Rattle.std.specs.Prelude.{◌≡◌, Some, IfOk};
ghost use Rattle.std.specs.Option.{option_copied};
ghost use Rattle.host_meaning.specs.Methods.{has_dot, package_of, full_name};

use obj_kinds::{ClassName, NoMemory, Text};
use schema_kinds::short_name_of;
use std::alloc::Global;

fn has_dot(name: &[u8]) -> bool
    ensures { result ≡ has_dot name.now }
{
    for byte in name {
        if *byte == b'.' {
            return true;
        }
    }
    false
}

/// What stands up to the last dot of a name, with it.
fn package_of(name: &ClassName) -> &[u8]
    ensures { result.now ≡ package_of name.now.0 }
{
    let bytes = name.0.as_slice();
    let short = short_name_of(name);
    &bytes[..bytes.len() - short.len()]
}

fn name_within(alloc: Global, within: &ClassName, class: ClassName) -> Result<ClassName, NoMemory>
    ensures { IfOk result (λ name. name ≡ full_name (Some within.now) class) }
{
    if has_dot(class.0.as_slice()) {
        return Ok(class);
    }
    let mut name = Text::from_slice(alloc, package_of(within))?;
    name.push_slice(class.0.as_slice())?;
    Ok(ClassName(name))
}

/// The class that a name means: in the body of a method, a name without a dot is one of the package of the class that declares the
/// method.
pub fn full_name(
    alloc: Global,
    declarer: Option<&ClassName>,
    class: ClassName,
) -> Result<ClassName, NoMemory>
    ensures { IfOk result (λ name. name ≡ full_name (option_copied declarer.entry) class) }
{
    match declarer {
        Some(within) => name_within(alloc, within, class),
        None => Ok(class),
    }
}
