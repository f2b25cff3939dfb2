//! Numbers drawn from a number.
ghost use Rattle.std.specs.Prelude.{◌≡◌, ◌<◌};
ghost use Rattle.part_gen.specs.Draws.{next, answer, state};

const FACTOR: u64 = 1_103_515_245;

const STEP: u64 = 12_345;

const MODULUS: u64 = 2_147_483_648;

/// A linear congruential generator by its state: the one of the C standard's example of `rand`,
/// modulo 2^31.
#[derive(Clone, Copy)]
pub(crate) struct Draws {
    x: u32,
}

impl Draws {
    /// The generator of a number.
    #[tactic(auto, unfolding(crate::specs::Draws::state))]
    pub(crate) fn new(n: u32) -> Draws
        ensures { result.x ≡ state n 0 }
    {
        Draws {
            x: (u64::from(n) % MODULUS) as u32,
        }
    }

    /// Draws one of the numbers below `choices`.
    #[tactic(auto, unfolding(crate::specs::Draws::next, crate::specs::Draws::answer))]
    pub(crate) fn draw(&mut self, choices: u32) -> u32
        requires { 0 < choices }
        ensures value { result ≡ answer self.old.x choices }
        ensures below { result < choices }
        ensures state { self.new.x ≡ next self.old.x }
    {
        self.x = ((FACTOR * u64::from(self.x) + STEP) % MODULUS) as u32;
        self.x / 65_536 % choices
    }
}
