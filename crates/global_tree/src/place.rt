ghost use Rattle.std.specs.Prelude.{◌≡◌, ◌+◌, ◌<◌, ◌^◌, IsTrue, OnSome, remove, vec_len};
ghost use Rattle.std.specs.FinMap.{is_sorted};
ghost use Rattle.obj_kinds.specs.Order.{node_cmp};
ghost use Rattle.global_tree.specs.Places.{contents, emptied, AllLive, IsTree};

use obj_kinds::{Node, Value};

/// The place of a node: its value, and how many pins keep it.
#[derive(Drop)]
pub struct Place {
    pub value: Option<Value>,
    pub pins: u64,
}

impl Place {
    /// Stores the value, or takes it away; the pins stay.
    pub fn put(&mut self, value: Option<Value>)
        ensures { self.new ≡ record { value = value; pins = self.old.pins } }
    {
        self.value = value;
    }

    /// Takes the value away, if there is one, and pins the place once more for it.
    #[tactic(auto, unfolding(crate::specs::Places::emptied))]
    pub fn empty(&mut self)
        requires { OnSome self.old.value (self.old.pins + 1 < 2 ^ 64) }
        ensures { self.new ≡ emptied self.old }
    {
        if self.value.is_some() {
            self.value = None;
            self.pins += 1;
        }
    }
}

/// Removes the place that has neither a value nor a pin, if it is such a place.
pub fn remove_empty(places: &mut Vec<(Node, Place)>, at: usize)
    requires within { at < vec_len places.old }
    requires rising { IsTrue (is_sorted node_cmp places.old.items) }
    requires others { AllLive (remove places.old.items at) }
    ensures tree { IsTree places.new.items }
    ensures same { contents places.new.items ≡ contents places.old.items }
{
    let place = &places[at].1;
    if place.pins == 0 && place.value.is_none() {
        places.remove(at);
    }
}
