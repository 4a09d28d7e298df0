//! What is asked of schemas, on worked classes.

ghost use Rattle.call_rules.specs.BankNames.{BankIsApart};

/// The classes of the worked calls have the names apart and the forms that are asked of a schema.
pub fn the_bank_has_names_apart()
    ensures { BankIsApart }
{}
