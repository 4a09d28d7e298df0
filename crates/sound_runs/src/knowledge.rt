ghost use Rattle.sound_runs.specs.Laws.{KnowledgeStays, ViewsAreKnown, DrawsAreKnown};

/// What a process knows of an object's class and id, by its view or by its own draw, stays so by each orderly entry of all processes.
pub fn knowledge_is_kept()
    ensures stays { KnowledgeStays }
    ensures views { ViewsAreKnown }
    ensures draws { DrawsAreKnown }
{}
