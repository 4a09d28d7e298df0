//! The audit.

ghost use Rattle.std.specs.Prelude.{◌≡◌, [], None, IfOk, IfErr, IsTrue};
ghost use Rattle.std.specs.List.{list_all};
ghost use Rattle.std.specs.FinMap.{from_sorted, is_sorted};
ghost use Rattle.schema_kinds.specs.Worlds.{World as WorldOf, key_cmp};
ghost use Rattle.world_audit.specs.Laws.{is_within, AreStorable};
ghost use Rattle.world_audit.specs.Finds.{with_nodes, wholes};
ghost use Rattle.world_audit.specs.Openings.{Opening};
ghost use Rattle.world_audit.specs.Answers.{Judges, TellsNode, TellsFault, TellsMemory};

use crate::counts::{note_counts, note_lows};
use crate::firsts::{find_firsts, note_seconds};
use crate::found::{Audited, Finds, find_all, note_all_broken};
use crate::least::Least;
use crate::marks::mark_finds;
use crate::sides::{Among, note_untargeted};
use crate::strays::{Marked, note_strays};
use crate::world::{World, into_world};
use obj_kinds::{NoMemory, Node, Pairs};
use record_reading::FormError;
use schema_kinds::Schema;
use std::alloc::Global;

// The least node at fault.
fn least_fault(alloc: Global, on: &Audited<'_>, finds: &Finds) -> Result<Option<Node>, NoMemory>
    requires within { IsTrue (list_all is_within on.now.nodes.now) }
    requires finds { finds.now.entries ≡ with_nodes on.now.schema.now on.now.nodes.now [] on.now.nodes.now }
    ensures { IfOk result (λ fault. Judges on.now.schema.now on.now.nodes.now fault) }
{
    let mut least = Least::new();
    note_all_broken(alloc, finds, &mut least)?;
    let marks = mark_finds(alloc, on, finds, &mut least)?;
    let firsts = find_firsts(alloc, on.schema, finds)?;
    note_seconds(alloc, on.schema, finds, &firsts, &mut least)?;
    let among = Among {
        schema: on.schema,
        finds,
    };
    note_untargeted(alloc, &among, &mut least)?;
    let marked = Marked {
        nodes: on.nodes.as_slice(),
        marks: marks.as_slice(),
    };
    note_strays(alloc, on.schema, finds, &marked, &mut least)?;
    note_lows(alloc, on.nodes, finds, &mut least)?;
    note_counts(alloc, on, &mut least)?;
    Ok(least.into_node())
}

// The world of what was found, or the node at fault.
fn judged(alloc: Global, finds: Finds, fault: Option<Node>) -> Result<World, FormError>
    requires { IsTrue (is_sorted key_cmp finds.entries) }
    ensures world { IfOk result (λ w. (w ≡ from_sorted (wholes finds.entries)) × (fault ≡ None)) }
    ensures damaged { IfErr result (TellsNode fault) }
{
    match fault {
        Some(node) => Err(FormError::Damaged(node)),
        None => match into_world(alloc, finds) {
            Ok(world) => Ok(world),
            Err(NoMemory) => Err(FormError::NoMemory),
        },
    }
}

/// The world of which the nodes of the schema are the image, counters aside. Each node is within its limits.
///
/// `Damaged` names the least node, in node order, of these: a node of the schema that belongs to no key, or isn't in the
/// rows and entries of the record that its key's nodes give; where these give no record, the node that [`record_from`]
/// names; a node of those rows and entries that is missing; of two equal keys of a unique index the entry that is later;
/// the entry of a one side without a target in a class at or below the declared one; a counter that isn't absent and no
/// canonical whole number from 0 on, or is below an id of its extent.
///
/// [`record_from`]: record_reading::record_from
pub fn audit(alloc: Global, schema: &Schema, nodes: &Pairs) -> Result<World, FormError>
    requires { IsTrue (list_all is_within nodes.now) }
    ensures world { AreStorable schema.now → IfOk result (Opening schema.now (from_sorted nodes.now)) }
    ensures damaged { AreStorable schema.now → IfErr result (TellsFault schema.now nodes.now) }
    ensures accepts { (w : WorldOf) → AreStorable schema.now → Opening schema.now (from_sorted nodes.now) w → IfErr result TellsMemory }
{
    let finds = find_all(alloc, schema, nodes)?;
    let on = Audited { schema, nodes };
    let fault = least_fault(alloc, &on, &finds)?;
    judged(alloc, finds, fault)
}
