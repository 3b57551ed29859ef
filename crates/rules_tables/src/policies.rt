// The policy of a category, and whether each category over nothing has one.
ghost use Rattle.std.specs.Prelude.{◌≡◌, ◌<◌};
ghost use Rattle.rules_tables.specs.Fits.{Within};
ghost use Rattle.rules_tables.specs.Enforced.{policy_place, uncovered, uncovered_in};

use crate::{CATEGORIES, CATEGORY_WORDS, OVER_COUNT, POLICIES, POLICY_WORDS, RulesCounts};

// The number of the policy of category m, or how many there are where it has none.
pub fn policy_place(words: &[u32], counts: RulesCounts, m: usize) -> usize
    requires { Within words.now counts }
    ensures { result ≡ policy_place words.now counts m }
{
    let count = counts.policies;
    for i in 0..count {
        if words[POLICIES + POLICY_WORDS * i] as usize == m {
            return i;
        }
    }
    count
}

// Whether category k is over nothing and has no policy.
fn lacks_policy(words: &[u32], counts: RulesCounts, k: usize) -> bool
    requires { Within words.now counts × (k < 16) }
    ensures { result ≡ uncovered words.now counts k }
{
    if words[CATEGORIES + CATEGORY_WORDS * k + OVER_COUNT] == 0 {
        return counts.policies <= policy_place(words, counts, k);
    }
    false
}

// Whether some category over nothing has no policy.
pub fn is_uncovered(words: &[u32], counts: RulesCounts) -> bool
    requires { Within words.now counts }
    ensures { result ≡ uncovered_in words.now counts }
{
    let count = counts.categories;
    for k in 0..count {
        if lacks_policy(words, counts, k) {
            return true;
        }
    }
    false
}
