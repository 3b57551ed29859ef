// Stretches of lent words: clearing them.
#![tactic(auto)]

ghost use Rattle.std.specs.Prelude.{◌≡◌};
ghost use Rattle.fill.specs.Filled.{filled};

// A cleared word: all ones.
pub const CLEARED: u32 = 0xFFFF_FFFF;

// Clears every word from a place on; a place past the end clears none.
pub fn fill(words: &mut [u32], from: usize)
    ensures { words.new ≡ filled from words.old }
{
    let start = from.min(words.len());
    words[start..].fill(CLEARED);
}
