//! Draws from a generator.
ghost use Rattle.std.specs.Prelude.{◌≡◌, ◌≤◌, ◌<◌};
ghost use Rattle.scenario_make.specs.Draws.{after, draw};

use rand_core::utils::NextWord;
use rand_pcg::Lcg64Xsh32;

/// The generator's next word, modulo a bound.
#[tactic(auto, unfolding(crate::specs::Draws::draw, crate::specs::Draws::after))]
pub fn draw(generator: &mut Lcg64Xsh32, bound: u64) -> u64
    requires { 1 ≤ bound }
    ensures value { result ≡ draw generator.old 0 bound }
    ensures small { result < bound }
    ensures after { generator.new ≡ after 1 generator.old }
{
    let word = generator.next_word() as u64;
    word % bound
}
