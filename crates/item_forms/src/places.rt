// The word, the name or the policy text that follows, with where it stands.
ghost use Rattle.item_forms.specs.Places.{NextWord, NextName, NextQuoted};

use crate::pieces;
use items::read;
use model::Part;

// The next item, if it is a word.
pub fn next_word(s: &[u8], from: usize, free: bool, depth: usize) -> Option<Part>
    ensures { NextWord depth free s.now from result }
{
    let p = read::next(s, from, free)?.item()?;
    let q = pieces::word_at(s, p)?;
    Some(Part {
        start: p,
        length: q - p,
    })
}

// The next item behind a word, if it is a name.
pub fn next_name(s: &[u8], from: usize, depth: usize) -> Option<Part>
    ensures { NextName depth s.now from result }
{
    pieces::next_name(s, from, false, depth)?.item()
}

// The next item behind a word, if it is a policy text: what stands between its quotes.
pub fn next_quoted(s: &[u8], from: usize, depth: usize) -> Option<Part>
    ensures { NextQuoted depth s.now from result }
{
    let p = read::next(s, from, false)?.item()?;
    let q = read::item(s, p, depth)?.quoted()?;
    Some(Part {
        start: p + 1,
        length: q - p - 2,
    })
}
