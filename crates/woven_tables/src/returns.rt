// The Return vertices of the query, with their woven numbers.
ghost use Rattle.std.specs.Prelude.{◌≤◌, length};
ghost use Rattle.woven_tables.specs.Tables.{woven_words};
ghost use Rattle.woven_tables.specs.Steps.{ReturnsReady, ReturnsAdded};

use crate::RETURNS;
use model::limits::{MAX_RETURNS, MAX_VERTICES};

// Makes a text's Return vertices those of the woven pattern.
pub fn add_returns(
    returns: [usize; MAX_RETURNS],
    count: usize,
    numbers: [usize; MAX_VERTICES],
    words: &mut [u32],
)
    requires { ReturnsReady returns count numbers × (woven_words ≤ length words.old) }
    ensures { ReturnsAdded returns count numbers words.old words.new }
{
    for i in 0..count {
        let v = returns[i];
        words[RETURNS + i] = numbers[v] as u32;
    }
}
