// The identities of a request as plain data, or the fault of their line: one walk over them.
ghost use Rattle.std.specs.Prelude.{◌≡◌, ◌≤◌, ◌<◌};
ghost use Rattle.model.specs.Names.{mem};
ghost use Rattle.book_tables.specs.Fits.{Fits};
ghost use Rattle.rules_tables.specs.Fits.{Fits as RulesFit};
ghost use Rattle.request.specs.Stored.{ClaimsAsked, actor_names, InsideAll, ClaimsTold};

use crate::{Identities, claims, faults};
use book_tables::BookCounts;
use model::limits::MAX_IDENTITIES;
use model::refusal_numbers::{NO_REQUESTOR, NOT_DECLARED, SECOND_TIME};
use model::{Identity, Part};
use rules_tables::RulesCounts;
use text::parts;

// No identity.
pub const NONE: Identity = Identity {
    actor: Part {
        start: 0,
        length: 0,
    },
    node: 0,
};

// Whether one of the first identities is given to an actor.
fn is_given(s: &[u8], list: [Identity; MAX_IDENTITIES], count: usize, name: &[u8]) -> bool
    requires { (count ≤ 8) × InsideAll s.now list count }
    ensures { result ≡ mem name.now (actor_names s.now list count) }
{
    for i in 0..count {
        let given = list[i];
        let actor = given.actor;
        if compare::same_bytes(name, parts::part_of(s, actor)) {
            return true;
        }
    }
    false
}

// The identities from a place on, each with the number of its node, or the lowest fault of a line whose category has the number k: 4 if one is given to
// none of the category's actors or is none of the nodes, 5 if an actor has a second one, 11 if the requestor has none.
pub fn identities(
    book: &[u8],
    words: &[u32],
    counts: BookCounts,
    rules: &[u8],
    table: &[u32],
    sizes: RulesCounts,
    k: usize,
    s: &[u8],
    from: usize,
) -> Result<Identities, u32>
    requires { Fits book.now words.now counts × RulesFit rules.now table.now sizes × (k < sizes.categories) × ClaimsAsked s.now from }
    ensures { ClaimsTold book.now words.now counts rules.now table.now sizes k s.now from result }
{
    let mut list = [NONE; MAX_IDENTITIES];
    let mut count = 0;
    let mut i = from;
    while i < s.len() {
        let Some(claim) = claims::next_claim(s, i) else {
            if is_given(s, list, count, b"requestor") {
                return Ok(Identities { list, count });
            }
            return Err(NO_REQUESTOR);
        };
        let name = parts::part_of(s, claim.actor);
        if !faults::is_actor(rules, table, sizes, k, name) {
            return Err(NOT_DECLARED);
        }
        let number = book_tables::names::find_node(
            book,
            words,
            counts,
            parts::part_of(s, claim.node),
        );
        if counts.nodes <= number {
            return Err(NOT_DECLARED);
        }
        if is_given(s, list, count, name) {
            if faults::has_unknown(book, words, counts, rules, table, sizes, k, s, claim.next) {
                return Err(NOT_DECLARED);
            }
            return Err(SECOND_TIME);
        }
        list[count] = Identity {
            actor: claim.actor,
            node: number,
        };
        count += 1;
        i = claim.next;
    }
    Err(NO_REQUESTOR)
}
