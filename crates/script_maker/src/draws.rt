// Numbers drawn one after the other from a state.
ghost use Rattle.std.specs.Prelude.{◌≡◌, ◌<◌, ◌^◌};
ghost use Rattle.script_maker.specs.Draws.{given, next_state};

fn next_state(state: u64) -> u64
    requires { state < 2 ^ 31 }
    ensures next { result ≡ next_state state }
    ensures bound { result < 2 ^ 31 }
{
    (1_103_515_245 * state + 12_345) % 2_147_483_648
}

/// Draws a number below the limit.
pub fn draw(state: &mut u64, limit: u64) -> u64
    requires state { state.old < 2 ^ 31 }
    requires some { 0 < limit }
    ensures draws { result ≡ given state.new limit }
    ensures below { result < limit }
    ensures next { state.new ≡ next_state state.old }
    ensures bound { state.new < 2 ^ 31 }
{
    *state = next_state(*state);
    (*state / 65_536) % limit
}
