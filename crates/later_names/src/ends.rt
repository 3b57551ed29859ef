// How often each node is an end of a relationship.
ghost use Rattle.std.specs.Prelude.{◌<◌, ◌≤◌, length};
ghost use Rattle.later_names.specs.Ends.{EndsCounted};
ghost use Rattle.book_tables.specs.Layout.{book_words};

use book_tables::relationships::FROM_UNIT;
use book_tables::{BookCounts, RELATIONSHIPS};

// The counts of all nodes.
pub fn count_ends(words: &[u32], counts: BookCounts) -> [usize; 256]
    requires { (book_words ≤ length words.now) × (counts.relationships ≤ 1024) }
    ensures { EndsCounted words.now counts.relationships result }
{
    let mut ends = [0usize; 256];
    let count = counts.relationships;
    for i in 0..count {
        let word = words[RELATIONSHIPS + i] as usize;
        let from = word / FROM_UNIT % FROM_UNIT;
        ends[from] += 1;
        let to = word % FROM_UNIT;
        ends[to] += 1;
    }
    ends
}
