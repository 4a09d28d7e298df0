//! Rules for calls whose operations may all come.
#![tactic(auto)]

mod laws;

pub use laws::the_bank_has_names_apart;
