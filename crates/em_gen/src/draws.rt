ghost use Rattle.std.specs.Prelude.{◌≡◌, ◌<◌};
ghost use Rattle.em_gen.specs.Draws.{after_wide, drawn, next_state, wide_drawn};

/// A state of the draws, modulo 2^31.
const STATES: u64 = 2147483648;

/// A draw: it changes the state, and gives a number from 0 to 32767.
pub fn draw(state: &mut u64) -> u64
    requires { state.old < 2147483648 }
    ensures state { state.new ≡ next_state state.old }
    ensures value { result ≡ drawn state.old }
    ensures below { state.new < 2147483648 }
    ensures few { result < 32768 }
{
    *state = (1103515245 * *state + 12345) % STATES;
    *state / 65536
}

/// A wide draw below a number, by two draws.
pub fn wide_draw(state: &mut u64, below: u64) -> u64
    requires state { state.old < 2147483648 }
    requires some { 0 < below }
    ensures state { state.new ≡ after_wide state.old }
    ensures value { result ≡ wide_drawn below state.old }
    ensures below { state.new < 2147483648 }
    ensures within { result < below }
{
    let upper = draw(state);
    let lower = draw(state);
    (32768 * upper + lower) % below
}
