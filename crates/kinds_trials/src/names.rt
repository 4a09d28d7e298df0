use crate::nodes::node_of;
use crate::words::number_in;
use obj_kinds::{Cause, ClassName, ErrorName, Id, NoMemory, Node, Pid, Text, Why, cause_text};
use std::alloc::Global;

/// All script errors.
const ERRORS: [ErrorName; 18] = [
    ErrorName::Undefined,
    ErrorName::InvalidOref,
    ErrorName::PropertyDoesNotExist,
    ErrorName::MethodDoesNotExist,
    ErrorName::ClassDoesNotExist,
    ErrorName::CannotSetThisProperty,
    ErrorName::Parameter,
    ErrorName::Command,
    ErrorName::TransactionLevel,
    ErrorName::Subscript,
    ErrorName::MaxString,
    ErrorName::MaxNumber,
    ErrorName::Divide,
    ErrorName::Function,
    ErrorName::List,
    ErrorName::NullValue,
    ErrorName::IllegalValue,
    ErrorName::FrameStack,
];

/// All rules that a property can break.
const WHYS: [Why; 8] = [
    Why::Required,
    Why::NotWhole,
    Why::NotTruth,
    Why::TooLong,
    Why::TooSmall,
    Why::TooLarge,
    Why::KeyTooLong,
    Why::RowTooLong,
];

/// The name of a script error.
pub fn answer_error(alloc: Global, rest: &[u8]) -> Result<Text, NoMemory> {
    let at = number_in(rest) as usize;
    match ERRORS.get(at) {
        Some(name) => Text::from_slice(alloc, name.text()),
        None => Text::from_slice(alloc, b"none"),
    }
}

fn row(alloc: Global) -> Result<Node, NoMemory> {
    let global = Text::from_slice(alloc, b"Bank.AccountD")?;
    node_of(alloc, global, 1, &Text::from_slice(alloc, b"1")?)
}

fn invalid(alloc: Global, prop: &[u8], why: Why) -> Result<Cause, NoMemory> {
    Ok(Cause::Invalid {
        class: ClassName(Text::from_slice(alloc, b"Bank.Account")?),
        prop: Text::from_slice(alloc, prop)?,
        why,
    })
}

fn cause(alloc: Global, number: u64, id: Id) -> Result<Cause, NoMemory> {
    let class = ClassName(Text::from_slice(alloc, b"Bank.Account")?);
    Ok(match number {
        8 => Cause::Busy {
            pid: Pid(64),
            node: row(alloc)?,
        },
        9 => Cause::Gone(id),
        10 => Cause::NotUnique {
            index: Text::from_slice(alloc, b"NumIdx")?,
            other: id,
        },
        11 => Cause::NoTarget { class, id },
        12 => Cause::HasMembers(id),
        13 => Cause::NotMember(id),
        14 => Cause::NotFound,
        15 => Cause::OtherClass(class),
        16 => Cause::IdLimit,
        17 => Cause::IdTaken(id),
        18 => Cause::Damaged(row(alloc)?),
        19 => Cause::TooDeep,
        _ => invalid(alloc, b"", Why::RowTooLong)?,
    })
}

/// The text of a cause: below 8 an invalid property, by the rule that it breaks.
pub fn answer_cause(alloc: Global, rest: &[u8]) -> Result<Text, NoMemory> {
    let number = number_in(rest);
    let cause = match WHYS.get(number as usize) {
        Some(why) => invalid(alloc, b"Number", *why)?,
        None => {
            let Some(id) = Id::from_numbers(&[7, 1]) else {
                return Text::from_slice(alloc, b"none");
            };
            cause(alloc, number, id)?
        }
    };
    cause_text(alloc, &cause)
}
