// A category's line more in the tables.
ghost use Rattle.std.specs.Prelude.{◌≡◌, ◌+◌, ◌≤◌, length};
ghost use Rattle.model.specs.Choice.{just};
ghost use Rattle.name_lists.specs.Names.{NamesRead, names_behind};
ghost use Rattle.rules.specs.Stored.{NamesRoom, NamesStored, CategoryClear, CategoryAdded};

use book_tables::names::NAME_LENGTHS;
use item_forms::{LIST_DEPTH, places};
use model::Part;
use rules_tables::{ACTORS, CATEGORIES, CATEGORY_WORDS, OVER, RulesCounts, lower, stores};

// Stores the names of a list one after another, the line beginning at the place `base` of the rules' text, and says how many they are.
fn store_names(words: &mut [u32], at: usize, s: &[u8], from: usize, base: usize) -> usize
    requires { NamesRoom words.old at s.now from × (base + length s.now ≤ 16384) }
    ensures { (x : NamesRead) → names_behind s.now from ≡ just x
        → (result ≡ length x.names) × NamesStored words.old words.new at s.now base x.names }
{
    let mut n = 0;
    let mut i = from;
    while i < s.len() {
        let Some(name) = places::next_name(s, i, LIST_DEPTH) else {
            return n;
        };
        stores::store_name(words, at + n, base + name.start, name.length);
        n += 1;
        i = name.start + name.length;
    }
    n
}

// Adds a category: its name in the line, its actors' names from a on, the names of those it is over from o on.
pub fn add_category(
    text: &[u8],
    words: &mut [u32],
    counts: RulesCounts,
    s: &[u8],
    base: usize,
    name: Part,
    a: usize,
    o: usize,
) -> RulesCounts
    requires { CategoryClear text.now words.old counts s.now base name a o }
    ensures { CategoryAdded text.now words.old words.new counts s.now name a o result }
{
    let k = counts.categories;
    let actors = store_names(words, CATEGORIES + CATEGORY_WORDS * k + ACTORS, s, a, base);
    let over = store_names(words, CATEGORIES + CATEGORY_WORDS * k + OVER, s, o, base);
    let set = lower::lower_set(text, words, k, over);
    let word = ((base + name.start) * NAME_LENGTHS + name.length) as u32;
    stores::store_category(words, k, word, actors, over, set);
    RulesCounts {
        categories: k + 1,
        policies: counts.policies,
    }
}
