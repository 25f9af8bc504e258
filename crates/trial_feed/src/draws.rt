//! Numbers drawn one after the other from a state.
ghost use Rattle.std.specs.Prelude.{◌≡◌, ◌<◌};
ghost use Rattle.trial_feed.specs.Draws.{next_state, drawn};

#[tactic(auto, using(crate::proofs::Wrapped::wrapped_state), unfolding(crate::specs::Draws::drawn))]
/// The next number below `limit`.
pub(crate) fn draw(state: &mut u64, limit: u64) -> u64
    requires { 0 < limit }
    ensures next { state.new ≡ next_state state.old }
    ensures number { result ≡ drawn limit state.new }
    ensures below { result < limit }
{
    *state = state
        .wrapping_mul(6364136223846793005)
        .wrapping_add(1442695040888963407);
    (*state >> 33) % limit
}
