//! Facts from outside: what 500 messages mean, and what reading them results in. The checker computes
//! the same from the definitions of this repository, and compares. `specs/Facts.antt` says what a line
//! of the other files of `specs/` states. No crate depends on this one.
//!
//! The facts have two sources, and none is an answer of this repository:
//!
//! - A model of the format in another language, written apart from this repository, made the
//!   messages. It says what each one means: the levels, words and capabilities of the value, the
//!   words that reading it charges, and its canonical words; or that the message means nothing.
//! - Upstream read the same messages, with a table that has every capability. From it are the names
//!   of refusals, the words that are charged before a refusal, and those that a size charges.
//!   Upstream and the model agree wherever both answer.
#![tactic(auto)]

ghost use Rattle.outside_facts.specs.Capabilities.{capabilities_1, capabilities_2};
ghost use Rattle.outside_facts.specs.Facts.{AreTrue};
ghost use Rattle.outside_facts.specs.Refusals.{refusals_1, refusals_2, refusals_3};
ghost use Rattle.outside_facts.specs.Values.{values_1, values_2, values_3, values_4, values_5, values_6};

/// Three readings of each message of `specs/` result in what is known from outside: of its value, of
/// its value for a canonical copy, and of its size. If one doesn't, the check fails at the clause of
/// its list.
#[tactic(none)]
pub fn facts_from_outside()
    ensures values_1 { AreTrue values_1 }
    ensures values_2 { AreTrue values_2 }
    ensures values_3 { AreTrue values_3 }
    ensures values_4 { AreTrue values_4 }
    ensures values_5 { AreTrue values_5 }
    ensures values_6 { AreTrue values_6 }
    ensures capabilities_1 { AreTrue capabilities_1 }
    ensures capabilities_2 { AreTrue capabilities_2 }
    ensures refusals_1 { AreTrue refusals_1 }
    ensures refusals_2 { AreTrue refusals_2 }
    ensures refusals_3 { AreTrue refusals_3 }
{}
