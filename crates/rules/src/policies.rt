// A policy's line: its lowest fault, by that of its text as a query; and the line more in the tables.
ghost use Rattle.std.specs.Prelude.{◌≡◌};
ghost use Rattle.model.specs.Book.{Book};
ghost use Rattle.model.specs.Answers.{name_at};
ghost use Rattle.text.specs.Parts.{HasPart};
ghost use Rattle.rules_tables.specs.View.{rules_at};
ghost use Rattle.rules_tables.specs.Fits.{Within, Fits};
ghost use Rattle.rules_tables.specs.Enforced.{has_one};
ghost use Rattle.item_forms.specs.Places.{WordPlaces};
ghost use Rattle.query_faults.specs.TextFault.{text_fault};
ghost use Rattle.rules.specs.Policies.{line_number, policy_on, combined, PolicyClear, PolicyAdded};

use model::Part;
use model::limits::MAX_POLICY_BYTES;
use model::refusal_numbers::{BROKEN, LIMIT_PASSED, NOT_DECLARED, OTHER_TYPE, SECOND_TIME};
use rules_tables::{CATEGORY_NAMES, RulesCounts, policies, stores};
use text::parts;

// The lowest fault of a policy's line, by its own faults and that of its text. A fault is a number, 0 being none: over the number that `query_faults`
// tells of the text, comparisons one after another are plainer than over an Option.
fn lowest_of(unknown: bool, second: bool, long: bool, fault: u32) -> u32
    ensures { result ≡ combined unknown second long fault }
{
    if fault == BROKEN {
        return BROKEN;
    }
    if unknown {
        return NOT_DECLARED;
    }
    if fault == NOT_DECLARED {
        return NOT_DECLARED;
    }
    if second {
        return SECOND_TIME;
    }
    if fault == SECOND_TIME {
        return SECOND_TIME;
    }
    if fault == OTHER_TYPE {
        return OTHER_TYPE;
    }
    if long {
        return LIMIT_PASSED;
    }
    fault
}

// Whether the category of a number has a policy already; none has the number of how many there are.
fn has_policy(words: &[u32], counts: RulesCounts, m: usize) -> bool
    requires { Within words.now counts }
    ensures { result ≡ has_one words.now counts m }
{
    policies::policy_place(words, counts, m) < counts.policies
}

// The lowest fault of a policy's line, or 0, by its category's name and its text in the line and by the fault of that text as a query.
pub fn policy_fault(
    text: &[u8],
    words: &[u32],
    counts: RulesCounts,
    s: &[u8],
    name: Part,
    query: Part,
    fault: u32,
) -> u32
    requires { Fits text.now words.now counts × WordPlaces s.now 0 name × HasPart s.now query }
    ensures { (b : Book) → fault ≡ text_fault b (name_at s.now query)
        → result ≡ line_number b (rules_at text.now words.now counts)
        (policy_on (name_at s.now name) (name_at s.now query)) }
{
    let count = counts.categories;
    let m = book_tables::names::find_name(
        text,
        words,
        CATEGORY_NAMES,
        count,
        parts::part_of(s, name),
    );
    lowest_of(
        count <= m,
        has_policy(words, counts, m),
        MAX_POLICY_BYTES < query.length,
        fault,
    )
}

// Adds a policy by its category's name and its text in the line, the line beginning at the place `base` of the rules' text.
pub fn add_policy(
    text: &[u8],
    words: &mut [u32],
    counts: RulesCounts,
    s: &[u8],
    base: usize,
    name: Part,
    query: Part,
) -> RulesCounts
    requires { PolicyClear text.now words.old counts s.now base name query }
    ensures { PolicyAdded text.now words.old words.new counts s.now name query result }
{
    let count = counts.categories;
    let m = book_tables::names::find_name(
        text,
        words,
        CATEGORY_NAMES,
        count,
        parts::part_of(s, name),
    );
    let i = counts.policies;
    stores::store_policy(words, i, m, base + query.start, query.length);
    RulesCounts {
        categories: count,
        policies: i + 1,
    }
}
