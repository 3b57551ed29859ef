// The names of a request's line that are none of the category's actors or of the book's nodes.
ghost use Rattle.std.specs.Prelude.{◌≡◌, List, ◌<◌};
ghost use Rattle.model.specs.Choice.{just};
ghost use Rattle.model.specs.Lists.{any};
ghost use Rattle.model.specs.Names.{mem};
ghost use Rattle.model.specs.Book.{node_names};
ghost use Rattle.model.specs.Request.{Claim};
ghost use Rattle.book_tables.specs.View.{book_at};
ghost use Rattle.book_tables.specs.Fits.{Fits};
ghost use Rattle.rules_tables.specs.View.{actors_at};
ghost use Rattle.rules_tables.specs.Fits.{Fits as RulesFit};
ghost use Rattle.request.specs.Claims.{claims_from, is_unknown};

use crate::claims;
use book_tables::BookCounts;
use rules_tables::{ACTORS, CATEGORIES, CATEGORY_WORDS, RulesCounts};
use text::parts;

// Whether a name is that of an actor of category k.
pub fn is_actor(rules: &[u8], table: &[u32], sizes: RulesCounts, k: usize, name: &[u8]) -> bool
    requires { RulesFit rules.now table.now sizes × (k < sizes.categories) }
    ensures { result ≡ mem name.now (actors_at rules.now table.now k) }
{
    let count = table[CATEGORIES + CATEGORY_WORDS * k] as usize;
    let at = CATEGORIES + CATEGORY_WORDS * k + ACTORS;
    book_tables::names::find_name(rules, table, at, count, name) < count
}

// Whether a name is that of a node.
fn is_node(book: &[u8], words: &[u32], counts: BookCounts, name: &[u8]) -> bool
    requires { Fits book.now words.now counts }
    ensures { result ≡ mem name.now (node_names (book_at book.now words.now counts)) }
{
    book_tables::names::find_node(book, words, counts, name) < counts.nodes
}

// Whether an identity is given to none of category k's actors, or is none of the nodes.
pub fn has_unknown(
    book: &[u8],
    words: &[u32],
    counts: BookCounts,
    rules: &[u8],
    table: &[u32],
    sizes: RulesCounts,
    k: usize,
    s: &[u8],
    from: usize,
) -> bool
    requires { Fits book.now words.now counts × RulesFit rules.now table.now sizes × (k < sizes.categories) }
    ensures { (xs : List Claim) → claims_from s.now from ≡ just xs
        → result ≡ any (is_unknown (actors_at rules.now table.now k) (node_names (book_at book.now words.now counts)))
        xs }
{
    let mut i = from;
    while i < s.len() {
        let Some(claim) = claims::next_claim(s, i) else {
            return false;
        };
        if !is_actor(rules, table, sizes, k, parts::part_of(s, claim.actor)) {
            return true;
        }
        if !is_node(book, words, counts, parts::part_of(s, claim.node)) {
            return true;
        }
        i = claim.next;
    }
    false
}
