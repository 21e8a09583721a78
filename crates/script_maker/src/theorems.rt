//! What holds of every number's script: the contract of a function that does nothing.
ghost use Rattle.std.specs.Prelude.{ℕ, ◌≡◌, None};
ghost use Rattle.swarm_input.specs.Script.{reading};
ghost use Rattle.script_maker.specs.Script.{script_text};

/// Whatever is drawn, each line is in the grammar, and none is too long.
pub fn scripts_are_in_the_grammar()
    ensures { (number : ℕ) → (reading (script_text number)).bad ≡ None }
{}
