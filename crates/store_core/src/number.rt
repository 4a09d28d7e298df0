ghost use Rattle.std.specs.Prelude.{◌≡◌, ◌<◌, ◌^◌, IfOk, unsigned_abs};
ghost use Rattle.std.specs.Option.{option_copied};
ghost use Rattle.obj_kinds.specs.Subscript.{IsWhole};
ghost use Rattle.store_core.specs.Numbers.{incremented as sum_at, as_value};

use itoa::Buffer;
use obj_kinds::{NoMemory, Text, Value, number_of};
use std::alloc::Global;

/// The first number with more digits than a whole number may have.
const TOO_LARGE: u64 = 1_000_000_000_000_000_000;

/// The leading number that is there plus the step; none where one of the two leaves 18 digits.
#[tactic(auto, unfolding(crate::specs::Numbers::incremented))]
pub fn incremented(value: Option<&Value>, step: i64) -> Option<i64>
    ensures { result ≡ sum_at (option_copied value.entry) step }
{
    let number = match value {
        Some(Value::Str(text)) => match number_of(text.as_slice()) {
            Ok(number) => number,
            Err(_) => return None,
        },
        _ => 0,
    };
    let sum = number.checked_add(step)?;
    if sum.unsigned_abs() >= TOO_LARGE {
        return None;
    }
    Some(sum)
}

/// The number as it is stored.
pub fn number_value(alloc: Global, number: i64) -> Result<Value, NoMemory>
    ensures { IfOk result (λ v. v ≡ as_value number) }
{
    let mut buffer = Buffer::new();
    let text = Text::from_slice(alloc, buffer.format(number).as_bytes())?;
    Ok(Value::Str(text))
}
