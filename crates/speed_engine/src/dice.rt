//! Numbers and bytes that look random, the same in each run.

use std::alloc::{AllocError, Global};

/// The state that the next number is drawn from.
#[derive(Drop)]
pub struct Dice {
    state: u64,
}

impl Dice {
    /// Numbers that this seed decides.
    pub fn new(seed: u64) -> Dice {
        Dice { state: seed }
    }

    /// Changes what is drawn from here on.
    pub fn stir(&mut self, number: u64) {
        self.state = self.state.wrapping_add(number);
    }

    /// The next byte, below so many letters.
    pub fn byte(&mut self, letters: u8) -> u8 {
        self.state = self
            .state
            .wrapping_mul(6364136223846793005)
            .wrapping_add(1442695040888963407);
        let letter = (self.state >> 33) % u64::from(letters.max(1));
        (letter % 256) as u8
    }
}

/// So many bytes, each below so many letters.
pub fn drawn(alloc: Global, count: u32, letters: u8) -> Result<Vec<u8>, AllocError> {
    let mut dice = Dice::new(99);
    let mut bytes = Vec::new(alloc);
    for k in 0..count {
        dice.stir(u64::from(k));
        bytes.push(dice.byte(letters))?;
    }
    Ok(bytes)
}
