// One line more, after its form was read: its lowest fault, or the rules with it.
ghost use Rattle.rules.specs.Steps.{CategoryGiven, CategoryStepped, PolicyGiven, PolicyStepped};

use crate::{categories, policies, tests};
use model::Part;
use rules_tables::RulesCounts;

// A category's line.
pub fn category_step(
    text: &[u8],
    words: &mut [u32],
    counts: RulesCounts,
    s: &[u8],
    base: usize,
    name: Part,
    a: usize,
    o: usize,
) -> Result<RulesCounts, u32>
    requires { CategoryGiven text.now words.old counts s.now base name a o }
    ensures { CategoryStepped text.now words.old words.new counts s.now name a o result }
{
    if let Some(fault) = tests::category_fault(text, words, counts, s, name, a, o) {
        return Err(fault);
    }
    Ok(categories::add_category(text, words, counts, s, base, name, a, o))
}

// A policy's line, by the fault of its text as a query.
pub fn policy_step(
    text: &[u8],
    words: &mut [u32],
    counts: RulesCounts,
    s: &[u8],
    base: usize,
    name: Part,
    query: Part,
    fault: u32,
) -> Result<RulesCounts, u32>
    requires { PolicyGiven text.now words.old counts s.now base name query fault }
    ensures { PolicyStepped text.now words.old words.new counts s.now name query fault result }
{
    let own = policies::policy_fault(text, words, counts, s, name, query, fault);
    if own != 0 {
        return Err(own);
    }
    Ok(policies::add_policy(text, words, counts, s, base, name, query))
}
