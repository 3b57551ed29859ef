// The forms of the rules' lines.
ghost use Rattle.std.specs.Prelude.{false};
ghost use Rattle.model.specs.Choice.{and_then};
ghost use Rattle.model.specs.Items.{line_items};
ghost use Rattle.model.specs.ReadRules.{category_line, policy_line, rules_line};
ghost use Rattle.item_forms.specs.Ends.{line_at};
ghost use Rattle.rules.specs.Forms.{NamesList, FormRead};

use crate::RulesForm;
use item_forms::{LINE_CLOSES, LINE_DEPTH, places};
use name_lists::scans;
use text::parts;

// (HEAD NAME...), if it follows: the place behind its head, and the place behind it.
fn names_list(s: &[u8], from: usize, head: &[u8]) -> Option<(usize, usize)>
    ensures { NamesList head.now s.now from result }
{
    let a = name_lists::places::headed(s, from, head)?;
    let e = scans::names_end(s, a)?;
    Some((a, e))
}

// NAME (actors WORD...) (over CATEGORY...), behind the line's first word.
fn category_form(s: &[u8], from: usize) -> Option<RulesForm>
    ensures { FormRead s.now (line_at false from s.now category_line) result }
{
    let name = places::next_name(s, from, LINE_DEPTH)?;
    let (a, e) = names_list(s, name.start + name.length, b"actors")?;
    let (o, f) = names_list(s, e, b"over")?;
    if item_forms::form_closes(s, f, LINE_CLOSES) {
        return Some(RulesForm::Category(name, a, o));
    }
    None
}

// CATEGORY "QUERY", behind the line's first word.
fn policy_form(s: &[u8], from: usize) -> Option<RulesForm>
    ensures { FormRead s.now (line_at false from s.now policy_line) result }
{
    let name = places::next_name(s, from, LINE_DEPTH)?;
    let query = places::next_quoted(s, name.start + name.length, LINE_DEPTH)?;
    if item_forms::form_closes(s, query.start + query.length + 1, LINE_CLOSES) {
        return Some(RulesForm::Policy(name, query));
    }
    None
}

// The form of a line by its first word.
pub fn rules_form(s: &[u8]) -> Option<RulesForm>
    ensures { FormRead s.now (and_then (line_items s.now) rules_line) result }
{
    let i = item_forms::open_form(s, 0)?;
    let word = places::next_word(s, i, true, LINE_DEPTH)?;
    let first = parts::part_of(s, word);
    let end = word.start + word.length;
    if compare::same_bytes(first, b"category") {
        return category_form(s, end);
    }
    if compare::same_bytes(first, b"policy") {
        return policy_form(s, end);
    }
    None
}
