ghost use Rattle.std.specs.Prelude.{◌≡◌};
ghost use Rattle.oref_table.specs.Keys.{number_in};

use obj_kinds::Id;
use std::hash::{Hash, Hasher};

/// The key of an object: the place of its extent among those that were met, and its id.
#[derive(Clone, Copy, PartialEq, Eq)]
pub struct Spot {
    /// The place of its extent
    pub extent: usize,
    pub id: Id,
}

fn number_at(id: &Id, at: usize) -> u64
    ensures { result ≡ number_in at id.now }
{
    id.part(at).unwrap_or(0)
}

impl Hash for Spot {
    ghost use Rattle.std.proofs.Common.{ap, sym, ◌++◌};
    ghost use Rattle.std.specs.Hash as fed;
    ghost use Rattle.oref_table.specs.declared.spot.Spot.{Spot};
    ghost use Rattle.oref_table.specs.Keys.{number_in};
    ghost use Rattle.oref_table.specs.SpotLaws.{same-spot};

    ghost hash_input = { λ (s : Spot). fed.usize s.extent ++ fed.u64 (number_in 0 s.id) ++ fed.u64 (number_in 1 s.id) ++ fed.u64 (number_in 2 s.id) };

    ghost respects_eq = { λ x y h. ap (λ (s : Spot). fed.usize s.extent ++ fed.u64 (number_in 0 s.id) ++ fed.u64 (number_in 1 s.id) ++ fed.u64 (number_in 2 s.id)) (same-spot x y h) };

    fn hash<H: Hasher>(&self, state: &mut H) {
        state.write_usize(self.extent);
        state.write_u64(number_at(&self.id, 0));
        state.write_u64(number_at(&self.id, 1));
        state.write_u64(number_at(&self.id, 2));
    }
}
