//! Laws of worked processes.

ghost use Rattle.worked_processes.specs.Again.{saves_again};
ghost use Rattle.worked_processes.specs.Within.{saves_within};
ghost use Rattle.worked_processes.specs.Ring.{saves_ring};
ghost use Rattle.worked_processes.specs.Dangling.{keeps_dangling};
ghost use Rattle.worked_processes.specs.Sides.{lacks_target, moves_clerk};
ghost use Rattle.worked_processes.specs.Bank.{IsWorked};
ghost use Rattle.worked_processes.specs.Loading.{empty_script, lets_go, opens_later, opens_twice, commits_nothing, writes_ok, overwrites, writes_twice, asks_for_saver, opens_low, sets_in_turn, locks_node, locks_below};
ghost use Rattle.worked_processes.specs.Saving.{saves_new, runs_out, has_no_id, saves_old, saves_second, saves_held, deletes_holder};

/// Worked processes without saves ask, note, print and end as was worked out by hand.
#[tactic(auto, using(crate::proofs::Computed::empty_script_worked, crate::proofs::Loaded::lets_go_worked, crate::proofs::Opened::opens_later_worked, crate::proofs::Opened::opens_twice_worked, crate::proofs::Computed::commits_nothing_worked, crate::proofs::Computed::writes_ok_worked, crate::proofs::Loaded::overwrites_worked, crate::proofs::Computed::writes_twice_worked, crate::proofs::Loaded::asks_for_saver_worked, crate::proofs::Loaded::opens_low_worked, crate::proofs::Computed::sets_in_turn_worked, crate::proofs::Computed::locks_node_worked, crate::proofs::Computed::locks_below_worked))]
pub fn worked_processes_without_saves_show_what_was_worked_out()
    ensures empty_script { IsWorked empty_script }
    ensures lets_go { IsWorked lets_go }
    ensures opens_later { IsWorked opens_later }
    ensures opens_twice { IsWorked opens_twice }
    ensures commits_nothing { IsWorked commits_nothing }
    ensures writes_ok { IsWorked writes_ok }
    ensures overwrites { IsWorked overwrites }
    ensures writes_twice { IsWorked writes_twice }
    ensures asks_for_saver { IsWorked asks_for_saver }
    ensures opens_low { IsWorked opens_low }
    ensures sets_in_turn { IsWorked sets_in_turn }
    ensures locks_node { IsWorked locks_node }
    ensures locks_below { IsWorked locks_below }
{}

/// Worked processes with saves and deletes ask, note, print and end as was worked out by hand.
#[tactic(auto, using(crate::proofs::Renamed::saves_new_worked, crate::proofs::Renamed::runs_out_worked, crate::proofs::Renamed::has_no_id_worked, crate::proofs::Renamed::saves_old_worked, crate::proofs::Renamed::saves_second_worked, crate::proofs::Renamed::saves_held_worked, crate::proofs::Saved::deletes_holder_worked))]
pub fn worked_processes_with_saves_show_what_was_worked_out()
    ensures saves_new { IsWorked saves_new }
    ensures runs_out { IsWorked runs_out }
    ensures has_no_id { IsWorked has_no_id }
    ensures saves_old { IsWorked saves_old }
    ensures saves_second { IsWorked saves_second }
    ensures saves_held { IsWorked saves_held }
    ensures deletes_holder { IsWorked deletes_holder }
{}

/// Worked processes with saves in transactions of their own ask, note, print and end as was worked out by hand.
#[tactic(auto, using(crate::proofs::Again::saves_again_worked, crate::proofs::Within::saves_within_worked))]
pub fn worked_processes_with_transactions_show_what_was_worked_out()
    ensures saves_again { IsWorked saves_again }
    ensures saves_within { IsWorked saves_within }
{}

/// Worked processes over references and sides ask, note, print and end as was worked out by hand.
#[tactic(auto, using(crate::proofs::Dangling::keeps_dangling_worked, crate::proofs::Lacking::lacks_target_worked, crate::proofs::Moving::moves_clerk_worked))]
pub fn worked_processes_over_references_show_what_was_worked_out()
    ensures keeps_dangling { IsWorked keeps_dangling }
    ensures lacks_target { IsWorked lacks_target }
    ensures moves_clerk { IsWorked moves_clerk }
{}

/// A worked process that saves a ring asks, notes, prints and ends as was worked out by hand.
#[tactic(auto, using(crate::proofs::Ring::saves_ring_worked))]
pub fn worked_processes_with_several_objects_show_what_was_worked_out()
    ensures saves_ring { IsWorked saves_ring }
{}
