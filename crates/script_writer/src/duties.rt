// Duties have texts.
ghost use Rattle.std.specs.Prelude.{◌≡◌, true};
ghost use Rattle.script_grammar.specs.HasText.{duty_has_text};

use swarm_objects::Duty;

/// Every duty has a text, since its numbers fit their types. Nothing is done: the contract alone is of use.
pub const fn fits(duty: Duty)
    ensures { duty_has_text duty ≡ true }
{}
