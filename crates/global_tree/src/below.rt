ghost use Rattle.std.specs.Prelude.{◌≡◌};
ghost use Rattle.std.specs.Option.{option_copied};
ghost use Rattle.global_tree.specs.Below.{sub_behind as behind, step_below as step, is_after, is_beyond as beyond};
ghost use Rattle.global_tree.specs.FirstStep.{first_step as first};

use crate::place::Place;
use obj_kinds::{Node, Sub};
use std::cmp::Ordering;

/// The first subscript behind the front, if the way begins with it and goes on.
fn sub_behind<'a>(front: &[Sub], way: &'a [Sub]) -> Option<&'a Sub>
    ensures { option_copied result ≡ behind front.now way.now }
{
    match (front.split_first(), way.split_first()) {
        (None, None) => None,
        (None, Some((sub, _))) => Some(sub),
        (Some(_), None) => None,
        (Some((left, front)), Some((right, way))) => match left.compare(right) {
            Ordering::Equal => sub_behind(front, way),
            _ => None,
        },
    }
}

/// The subscript by which the way from the node down to the other goes on.
#[tactic(auto, unfolding(crate::specs::Below::step_below))]
fn step_below<'a>(node: &Node, other: &'a Node) -> Option<&'a Sub>
    ensures { option_copied result ≡ step node.now other.now }
{
    match node.global.compare(&other.global) {
        Ordering::Equal => sub_behind(node.subs.as_slice(), other.subs.as_slice()),
        _ => None,
    }
}

fn comes_after(after: Option<&Sub>, sub: &Sub) -> bool
    ensures { result ≡ is_after (option_copied after.entry) sub.now }
{
    match after {
        None => true,
        Some(after) => matches!(after.compare(sub), Ordering::Less),
    }
}

/// Whether the other node comes after the node and after all that is below it by a subscript up to
/// the one given.
#[tactic(auto, unfolding(crate::specs::Below::is_beyond))]
pub fn is_beyond(node: &Node, after: Option<&Sub>, other: &Node) -> bool
    ensures { result ≡ beyond node.now (option_copied after.entry) other.now }
{
    match step_below(node, other) {
        None => matches!(node.compare(other), Ordering::Less),
        Some(sub) => comes_after(after, sub),
    }
}

/// The first subscript below the node on the way to a place with a value; the descendants of the
/// node come first.
pub fn first_step<'a>(node: &Node, places: &'a [(Node, Place)]) -> Option<&'a Sub>
    ensures { option_copied result ≡ first node.now places.now }
{
    for place in places {
        let sub = step_below(node, &place.0)?;
        if place.1.value.is_some() {
            return Some(sub);
        }
    }
    None
}
