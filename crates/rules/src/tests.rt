// The faults of a category's line, each by one test.
ghost use Rattle.std.specs.Prelude.{◌≡◌, not, ◌||◌, ◌&&◌, ◌+◌, ◌≤◌, ◌<◌, length, leb, ltb};
ghost use Rattle.model.specs.Bytes.{bytes_of};
ghost use Rattle.model.specs.Choice.{just};
ghost use Rattle.model.specs.Lists.{all};
ghost use Rattle.model.specs.Names.{mem, twice};
ghost use Rattle.model.specs.Book.{Book};
ghost use Rattle.model.specs.Answers.{name_at};
ghost use Rattle.model.specs.ReadRules.{category, lacks_actor, rules_fault};
ghost use Rattle.book_tables.specs.View.{name_of, names_at};
ghost use Rattle.book_tables.specs.Fits.{NamesFit};
ghost use Rattle.rules_tables.specs.Layout.{names, all_rules_words};
ghost use Rattle.rules_tables.specs.View.{actors_at, rules_at};
ghost use Rattle.rules_tables.specs.Fits.{CategoryFits, Fits};
ghost use Rattle.item_forms.specs.Places.{WordPlaces};
ghost use Rattle.name_lists.specs.Names.{NamesRead, names_behind};
ghost use Rattle.rules.specs.Faults.{fault_of};

use item_forms::{LIST_DEPTH, places};
use model::Part;
use model::limits::{MAX_ACTORS, MAX_CATEGORIES};
use model::refusal_numbers::{ACTOR_LACKING, LIMIT_PASSED, NOT_DECLARED, SECOND_TIME};
use name_lists::scans;
use rules_tables::{ACTORS, CATEGORIES, CATEGORY_NAMES, CATEGORY_WORDS, RulesCounts};
use text::parts;

// Whether some name from a place on is that of no category.
fn is_unknown(text: &[u8], words: &[u32], count: usize, s: &[u8], from: usize) -> bool
    requires { NamesFit text.now words.now names count × (names + count ≤ length words.now) }
    ensures { (x : NamesRead) → names_behind s.now from ≡ just x
        → result ≡ not (all (λ c. mem c (names_at text.now words.now names count)) x.names) }
{
    let mut i = from;
    while i < s.len() {
        let Some(name) = places::next_name(s, i, LIST_DEPTH) else {
            return false;
        };
        let name_bytes = parts::part_of(s, name);
        if count <= book_tables::names::find_name(text, words, CATEGORY_NAMES, count, name_bytes) {
            return true;
        }
        i = name.start + name.length;
    }
    false
}

// Whether the category is declared already, or an actor or one that it is over is listed twice.
fn is_second(
    text: &[u8],
    words: &[u32],
    count: usize,
    s: &[u8],
    name: Part,
    a: usize,
    o: usize,
) -> bool
    requires { NamesFit text.now words.now names count × (names + count ≤ length words.now) × WordPlaces s.now 0 name }
    ensures { (x y : NamesRead) → names_behind s.now a ≡ just x → names_behind s.now o ≡ just y
        → result ≡ (mem (name_at s.now name) (names_at text.now words.now names count) || twice x.names || twice y.names) }
{
    let name_bytes = parts::part_of(s, name);
    if book_tables::names::find_name(text, words, CATEGORY_NAMES, count, name_bytes) < count {
        return true;
    }
    if scans::has_twice(s, a) {
        return true;
    }
    scans::has_twice(s, o)
}

// Whether the categories or the actors pass their limit.
fn is_past_limit(count: usize, s: &[u8], a: usize) -> bool
    ensures { (x : NamesRead) → names_behind s.now a ≡ just x → result ≡ (leb 16 count || ltb 8 (length x.names)) }
{
    if MAX_CATEGORIES <= count {
        return true;
    }
    MAX_ACTORS < scans::count_names(s, a)
}

// Whether an actor of category k is none of the names from a place on.
fn lacks_one_of(text: &[u8], words: &[u32], k: usize, s: &[u8], a: usize) -> bool
    requires { CategoryFits text.now words.now k × (k < 16) × (all_rules_words ≤ length words.now) }
    ensures { (x : NamesRead) → names_behind s.now a ≡ just x
        → result ≡ not (all (λ w. mem w x.names) (actors_at text.now words.now k)) }
{
    let count = words[CATEGORIES + CATEGORY_WORDS * k] as usize;
    for i in 0..count {
        let actor = rules_tables::names::name_at(
            text,
            words,
            CATEGORIES + CATEGORY_WORDS * k + ACTORS + i,
        );
        if !scans::has_name(s, a, actor) {
            return true;
        }
    }
    false
}

// Whether category k is one of those listed from o on, and one of its actors is none of those from a on.
fn lacks_of_lower(text: &[u8], words: &[u32], k: usize, s: &[u8], a: usize, o: usize) -> bool
    requires { CategoryFits text.now words.now k × NamesFit text.now words.now names (k + 1) × (k < 16) × (all_rules_words ≤ length words.now) }
    ensures { (x y : NamesRead) → names_behind s.now a ≡ just x → names_behind s.now o ≡ just y
        → result ≡ (mem (name_of text.now words.now names k) y.names
        && not (all (λ w. mem w x.names) (actors_at text.now words.now k))) }
{
    if scans::has_name(
        s,
        o,
        rules_tables::names::name_at(text, words, CATEGORY_NAMES + k),
    ) {
        return lacks_one_of(text, words, k, s, a);
    }
    false
}

// Whether an actor of a category that the new one is over is lacking.
fn lacks_lower(
    text: &[u8],
    words: &[u32],
    counts: RulesCounts,
    s: &[u8],
    a: usize,
    o: usize,
) -> bool
    requires { Fits text.now words.now counts }
    ensures { (x y : NamesRead) → names_behind s.now a ≡ just x → names_behind s.now o ≡ just y
        → result ≡ lacks_actor (rules_at text.now words.now counts) x.names y.names }
{
    let count = counts.categories;
    for k in 0..count {
        if lacks_of_lower(text, words, k, s, a, o) {
            return true;
        }
    }
    false
}

// Whether requestor or an actor of a lower category is lacking.
fn lacks_actor(
    text: &[u8],
    words: &[u32],
    counts: RulesCounts,
    s: &[u8],
    a: usize,
    o: usize,
) -> bool
    requires { Fits text.now words.now counts }
    ensures { (x y : NamesRead) → names_behind s.now a ≡ just x → names_behind s.now o ≡ just y
        → result ≡ (not (mem (bytes_of "requestor") x.names) || lacks_actor (rules_at text.now words.now counts) x.names y.names) }
{
    if scans::has_name(s, a, b"requestor") {
        return lacks_lower(text, words, counts, s, a, o);
    }
    true
}

// The lowest fault of a category's line, if it has one.
pub fn category_fault(
    text: &[u8],
    words: &[u32],
    counts: RulesCounts,
    s: &[u8],
    name: Part,
    a: usize,
    o: usize,
) -> Option<u32>
    requires { Fits text.now words.now counts × WordPlaces s.now 0 name }
    ensures { (b : Book) (x y : NamesRead) → names_behind s.now a ≡ just x → names_behind s.now o ≡ just y
        → rules_fault b (rules_at text.now words.now counts) (category (name_at s.now name) x.names y.names)
        ≡ fault_of result }
{
    let count = counts.categories;
    if is_unknown(text, words, count, s, o) {
        return Some(NOT_DECLARED);
    }
    if is_second(text, words, count, s, name, a, o) {
        return Some(SECOND_TIME);
    }
    if is_past_limit(count, s, a) {
        return Some(LIMIT_PASSED);
    }
    if lacks_actor(text, words, counts, s, a, o) {
        return Some(ACTOR_LACKING);
    }
    None
}
