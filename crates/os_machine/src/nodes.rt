ghost use Rattle.std.specs.Prelude.{◌≡◌, Ok, Err, IfOk, IfErr};
ghost use Rattle.os_meaning.specs.Values.{sub_by, subscript_of, after_by, after_of};
ghost use Rattle.os_meaning.specs.Frames.{subs_by};
ghost use Rattle.os_machine.specs.Plains.{sub_text_of, node_by};

use crate::plain::Plain;
use crate::values::{Checked, text_in};
use obj_kinds::{ErrorName, NoMemory, Node, Sub, Subs, Text, Value};
use os_kinds::Val;
use sqlite_items::Items;
use std::alloc::Global;

/// The subscript that a text of 1 to 255 bytes is.
#[tactic(auto, using(crate::proofs::ValueLaws::sub_is))]
fn sub_in(alloc: Global, text: &Text) -> Result<Checked<Sub>, NoMemory>
    ensures { IfOk result (λ r. r ≡ sub_by text.now) }
{
    let is_sub = 1 <= text.len() && text.len() <= Sub::MAX_LEN;
    if !is_sub {
        return Ok(Err(ErrorName::Subscript));
    }
    match Sub::from_text(alloc, text.as_slice()) {
        Ok(sub) => Ok(Ok(sub)),
        // Its length is right.
        Err(_) => Err(NoMemory),
    }
}

fn after_in(alloc: Global, text: &Text) -> Result<Checked<Option<Sub>>, NoMemory>
    ensures { IfOk result (λ r. r ≡ after_by text.now) }
{
    if text.is_empty() {
        return Ok(Ok(None));
    }
    match sub_in(alloc, text)? {
        Ok(sub) => Ok(Ok(Some(sub))),
        Err(name) => Ok(Err(name)),
    }
}

/// The text of a value that is to be a subscript behind so many others.
fn sub_text(value: &Value, others: usize) -> Checked<&Text>
    ensures ok { IfOk result (λ text. sub_text_of others value.now ≡ Ok text.now) }
    ensures err { IfErr result (λ name. sub_text_of others value.now ≡ Err name) }
{
    let text = text_in(value)?;
    if Node::MAX_SUBS <= others {
        return Err(ErrorName::Subscript);
    }
    Ok(text)
}

/// A value as the subscript behind so many others.
#[tactic(auto, unfolding(os_meaning::specs::Values::subscript_of))]
pub(crate) fn subscript(alloc: Global, others: usize, value: &Val) -> Result<Checked<Sub>, NoMemory>
    ensures { IfOk result (λ r. r ≡ subscript_of others value.now) }
{
    let plain = Plain::of(alloc, value)?;
    match sub_text(plain.value(), others) {
        Ok(text) => sub_in(alloc, text),
        Err(name) => Ok(Err(name)),
    }
}

/// The subscript behind so many others, behind which the next one is sought.
#[tactic(auto, unfolding(os_meaning::specs::Values::after_of))]
pub(crate) fn after(
    alloc: Global,
    others: usize,
    value: &Val,
) -> Result<Checked<Option<Sub>>, NoMemory>
    ensures { IfOk result (λ r. r ≡ after_of others value.now) }
{
    let plain = Plain::of(alloc, value)?;
    match sub_text(plain.value(), others) {
        Ok(text) => after_in(alloc, text),
        Err(name) => Ok(Err(name)),
    }
}

fn subscripts(alloc: Global, values: &[Val]) -> Result<Checked<Subs>, NoMemory>
    ensures { IfOk result (λ r. r ≡ subs_by 0 values.now) }
{
    let mut subs = Items::new(alloc);
    for (others, value) in values.iter().enumerate() {
        match subscript(alloc, others, value)? {
            Ok(sub) => subs.push(sub)?,
            Err(name) => return Ok(Err(name)),
        }
    }
    Ok(Ok(subs))
}

/// The node of a global with these subscripts.
pub(crate) fn node(alloc: Global, global: &Text, values: &[Val]) -> Result<Checked<Node>, NoMemory>
    ensures { IfOk result (λ r. r ≡ node_by global.now values.now) }
{
    match subscripts(alloc, values)? {
        Ok(subs) => Ok(Ok(Node {
            global: global.copy(alloc)?,
            subs,
        })),
        Err(name) => Ok(Err(name)),
    }
}
