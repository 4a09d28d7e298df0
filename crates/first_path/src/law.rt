ghost use Rattle.first_path.specs.WorldLaw.{WorldLaw};

/// After any acts the world has exactly the objects that some save named, each once, with the values
/// that were set last before its last save.
pub fn world_law()
    ensures { WorldLaw }
{}
