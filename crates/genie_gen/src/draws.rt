//! The numbers of a round, drawn one after the other.
ghost use Rattle.std.specs.Prelude.{◌≡◌, ◌<◌};
ghost use Rattle.genie_gen.specs.Draws.{after, drawn, next, round_of};

/// The factor and the summand of one draw, modulo 2^64.
const FACTOR: u64 = 6364136223846793005;

const SUMMAND: u64 = 1442695040888963407;

/// The numbers of one round, in the order in which they are drawn.
#[derive(Clone, Copy, Debug, PartialEq, Eq)]
pub struct Round {
    pub device: u32,
    /// Which semantics the output has whose buffer the application allocates.
    pub output: u32,
    /// Which semantics the input has whose buffer the application allocates.
    pub input: u32,
    /// Which semantics the transfers have whose buffer the system allocates.
    pub system: u32,
    /// Where the output begins, and its length, in bytes.
    pub from: u32,
    pub sent: u32,
    /// Where the input begins, and its length, in bytes.
    pub to: u32,
    pub wanted: u32,
    /// The budgets of a first receive step and of a first send step, in bytes.
    pub receive: u32,
    pub send: u32,
    /// How many pages a pageout asks for.
    pub pages: u32,
    /// The length of the transfers whose buffer the system allocates, in bytes.
    pub moved: u32,
    /// The first byte that is written.
    pub first: u32,
}

// The next number below this one: from the high bits, since the low ones of such a generator have short periods.
#[tactic(auto, unfolding(crate::specs::Draws::next))]
fn draw(state: &mut u64, below: u32) -> u32
    requires { 0 < below }
    ensures state { state.new ≡ next state.old }
    ensures value { result ≡ drawn below (next state.old) }
    ensures bound { result < below }
{
    *state = state.wrapping_mul(FACTOR).wrapping_add(SUMMAND);
    ((*state >> 33) % below as u64) as u32
}

/// Draws the numbers of a round.
pub(crate) fn draw_round(state: &mut u64) -> Round
    ensures round { result ≡ round_of state.old }
    ensures state { state.new ≡ after 13 state.old }
    ensures first { result.first < 256 }
{
    Round {
        device: draw(state, 3),
        output: draw(state, 4),
        input: draw(state, 4),
        system: draw(state, 4),
        from: draw(state, 64),
        sent: 1 + draw(state, 64),
        to: draw(state, 64),
        wanted: 1 + draw(state, 64),
        receive: 1 + draw(state, 8),
        send: 1 + draw(state, 8),
        pages: draw(state, 16),
        moved: 49 + draw(state, 16),
        first: draw(state, 256),
    }
}
