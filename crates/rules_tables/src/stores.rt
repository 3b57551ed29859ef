// The stores: one name, one category, one policy more in the tables.
ghost use Rattle.std.specs.Prelude.{◌≡◌, ◌+◌, ◌*◌, ◌≤◌, ◌<◌, length, set};
ghost use Rattle.rules_tables.specs.Layout.{all_rules_words};
ghost use Rattle.rules_tables.specs.Stores.{with_category, with_policy};

use crate::{
    CATEGORIES, CATEGORY_NAMES, CATEGORY_WORDS, LOWER_SET, OVER_COUNT, POLICIES, POLICY_WORDS,
};
use book_tables::names::NAME_LENGTHS;

// A name's word at a place.
pub fn store_name(words: &mut [u32], at: usize, start: usize, size: usize)
    requires { (at < length words.old) × (start ≤ 16384) × (size < 32) }
    ensures { words.new ≡ set words.old at (start * 32 + size) }
{
    words[at] = (start * NAME_LENGTHS + size) as u32;
}

// Category k: its name, how many actors it has and over how many it is, its lower set.
pub fn store_category(
    words: &mut [u32],
    k: usize,
    name: u32,
    actors: usize,
    over: usize,
    lower: u32,
)
    requires { (all_rules_words ≤ length words.old) × (k < 16) × (actors ≤ 8) × (over ≤ 16) }
    ensures { words.new ≡ with_category words.old k name actors over lower }
{
    words[CATEGORY_NAMES + k] = name;
    words[CATEGORIES + CATEGORY_WORDS * k] = actors as u32;
    words[CATEGORIES + CATEGORY_WORDS * k + OVER_COUNT] = over as u32;
    words[CATEGORIES + CATEGORY_WORDS * k + LOWER_SET] = lower;
}

// Policy i: its category's number, start and length of its text.
pub fn store_policy(words: &mut [u32], i: usize, category: usize, start: usize, size: usize)
    requires { (all_rules_words ≤ length words.old) × (i < 16) × (category < 16) × (start + size ≤ 16384) }
    ensures { words.new ≡ with_policy words.old i category start size }
{
    words[POLICIES + POLICY_WORDS * i] = category as u32;
    words[POLICIES + POLICY_WORDS * i + 1] = start as u32;
    words[POLICIES + POLICY_WORDS * i + 2] = size as u32;
}
