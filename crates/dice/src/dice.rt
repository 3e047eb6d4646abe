ghost use Rattle.std.specs.Prelude.{◌≡◌, ◌<◌};
ghost use Rattle.dice.specs.Rolls.{dice_of, roll};

use rand_chacha::ChaCha8Rng;
use rand_core::SeedableRng;
use rand_core::utils::NextWord;
use std::marker::Model;

/// The random numbers of a seat. Contracts see the generator: its key, its stream, and the place of
/// the next word.
#[derive(Drop)]
pub struct Dice {
    generator: ChaCha8Rng,
}

impl Model for Dice {
    ghost use Rattle.rand_chacha.specs.ChaCha.{ChaCha};

    ghost Value = { ChaCha };

    ghost view = { λ dice. dice.generator };
}

impl Dice {
    /// Those of this seat, where the recording has this seed.
    pub fn new(seed: u64, seat: u64) -> Dice
        ensures { result ≡ dice_of seed seat }
    {
        let mut key = [0u8; 32];
        key[..8].copy_from_slice(&seed.to_le_bytes());
        let mut generator = ChaCha8Rng::from_seed(key);
        generator.set_stream(seat);
        Dice { generator }
    }

    /// The next number below the bound.
    pub fn roll(&mut self, bound: u64) -> u64
        requires { 0 < bound }
        ensures rolled { (result, self.new) ≡ roll bound self.old }
        ensures below { result < bound }
    {
        let high = u64::from(self.generator.next_word());
        let low = u64::from(self.generator.next_word());
        ((high << 32) | low) % bound
    }
}
