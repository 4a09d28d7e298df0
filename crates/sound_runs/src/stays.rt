ghost use Rattle.sound_runs.specs.Stays.{HoldsStay, HeldViewsStay, VacantStays, UnnamedStays, SafeStays, NoMembersUnnamed, OwnKeepsView, OwnHoldsStay, OwnSafeStays};

/// What a process finds out before its commit stays so by each orderly entry of another process: its holds to the end, its view under a
/// row that it holds, that a key node is vacant that it holds, that a key is unnamed whose row it holds; and so that a change is safe.
pub fn what_is_found_out_stays()
    ensures holds { HoldsStay }
    ensures views { HeldViewsStay }
    ensures vacant { VacantStays }
    ensures unnamed { UnnamedStays }
    ensures safe { SafeStays }
{}

/// A many side without members leaves its object's key unnamed.
pub fn no_members_leave_keys_unnamed()
    ensures { NoMembersUnnamed }
{}

/// And it stays so by the process's own entries within its save or delete, which leave its view.
pub fn what_is_found_out_stays_within()
    ensures view { OwnKeepsView }
    ensures holds { OwnHoldsStay }
    ensures safe { OwnSafeStays }
{}
