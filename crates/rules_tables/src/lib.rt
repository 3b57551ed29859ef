// The rules in words: where each category and each policy stands in the working memory, the lower sets, and the stores.
#![tactic(auto)]

ghost use Rattle.std.specs.Prelude.{◌≡◌};

pub mod lower;
pub mod names;
pub mod policies;
pub mod stores;

// The names of the categories, then the words of each category, then those of each policy.
pub const CATEGORY_NAMES: usize = 0;

pub const CATEGORIES: usize = 16;

pub const POLICIES: usize = 448;

// The words of a category: how many actors, over how many, its lower set, 8 actors' names, and the names of up to 16 that it is over.
pub const CATEGORY_WORDS: usize = 27;

pub const OVER_COUNT: usize = 1;

pub const LOWER_SET: usize = 2;

pub const ACTORS: usize = 3;

pub const OVER: usize = 11;

// The words of a policy: its category's number, and start and length of the text between its quotes.
pub const POLICY_WORDS: usize = 3;

// The words of all tables together.
pub const RULES_WORDS: usize = 512;

// How many of each the tables hold.
#[derive(Clone, Copy)]
pub struct RulesCounts {
    pub categories: usize,
    pub policies: usize,
}

// The counts of rules of no lines.
pub fn no_counts() -> RulesCounts
    ensures { (result.categories ≡ 0) × (result.policies ≡ 0) }
{
    RulesCounts {
        categories: 0,
        policies: 0,
    }
}
