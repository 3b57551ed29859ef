// The rules of a text, line by line, into the tables.
ghost use Rattle.std.specs.Prelude.{◌≤◌, length};
ghost use Rattle.rules_tables.specs.Layout.{all_rules_words};
ghost use Rattle.model.specs.Choice.{and_then};
ghost use Rattle.model.specs.Items.{line_items};
ghost use Rattle.model.specs.Lines.{read_lines, lines_of};
ghost use Rattle.model.specs.Refusal.{on_accept};
ghost use Rattle.model.specs.Book.{Book};
ghost use Rattle.model.specs.ReadRules.{rules_line, rules_step, covered, read_rules};
ghost use Rattle.text.specs.Lines.{line_at};
ghost use Rattle.book_tables.specs.View.{book_at};
ghost use Rattle.book_tables.specs.Fits.{Fits as BookFits};
ghost use Rattle.rules_tables.specs.View.{rules_at};
ghost use Rattle.rules_tables.specs.Fits.{Fits};
ghost use Rattle.rules.specs.Steps.{step_of, Stepped};
ghost use Rattle.rules.specs.Loaded.{no_rules, FormAsked, LineAsked, Loaded};

use crate::{RulesForm, forms, steps};
use book_tables::BookCounts;
use model::Refusal;
use model::limits::MAX_RULES_BYTES;
use model::refusal_numbers::{BROKEN, NOT_ALLOWED, RULES, TOO_LONG, UNCOVERED};
use query_faults::faulty;
use rules_tables::{RulesCounts, no_counts};
use text::{BytesFault, parts};

// Reads one line by its form, the line beginning at the place `base` of the rules' text.
fn form_step(
    book: &[u8],
    words: &[u32],
    counts: BookCounts,
    text: &[u8],
    s: &[u8],
    base: usize,
    rules_words: &mut [u32],
    known: RulesCounts,
) -> Result<RulesCounts, u32>
    requires { FormAsked book.now words.now counts text.now rules_words.old known s.now base }
    ensures { Stepped text.now rules_words.new result
        (step_of (book_at book.now words.now counts) (rules_at text.now rules_words.old known)
        (and_then (line_items s.now) rules_line)) }
{
    match forms::rules_form(s) {
        Some(RulesForm::Category(name, a, o)) => {
            steps::category_step(text, rules_words, known, s, base, name, a, o)
        }
        Some(RulesForm::Policy(name, query)) => {
            let fault = faulty::fault_of(book, words, counts, parts::part_of(s, query));
            steps::policy_step(text, rules_words, known, s, base, name, query, fault)
        }
        None => Err(BROKEN),
    }
}

// Reads one line from its start to its line feed; without a line feed it breaks the grammar.
fn line_step(
    book: &[u8],
    words: &[u32],
    counts: BookCounts,
    text: &[u8],
    from: usize,
    to: usize,
    rules_words: &mut [u32],
    known: RulesCounts,
) -> Result<RulesCounts, u32>
    requires { LineAsked book.now words.now counts text.now rules_words.old known from to }
    ensures { Stepped text.now rules_words.new result
        (rules_step (book_at book.now words.now counts) (rules_at text.now rules_words.old known)
        (line_at text.now from to)) }
{
    if text.len() <= to {
        return Err(BROKEN);
    }
    form_step(
        book,
        words,
        counts,
        text,
        &text[from..to],
        from,
        rules_words,
        known,
    )
}

// Refuses rules in which some category over nothing has no policy.
fn covered_rules(
    text: &[u8],
    rules_words: &[u32],
    known: RulesCounts,
) -> Result<RulesCounts, Refusal>
    requires { Fits text.now rules_words.now known × (length text.now ≤ 16384) }
    ensures { (b : Book) → Loaded b text.now rules_words.now result
        (covered (rules_at text.now rules_words.now known)) }
{
    if rules_tables::policies::is_uncovered(rules_words, known) {
        return Err(Refusal {
            number: UNCOVERED,
            text: RULES,
            line: 0,
        });
    }
    Ok(known)
}

// Reads the lines of the rules into the tables.
fn load_lines(
    book: &[u8],
    words: &[u32],
    counts: BookCounts,
    text: &[u8],
    rules_words: &mut [u32],
) -> Result<RulesCounts, Refusal>
    requires { BookFits book.now words.now counts × (length text.now ≤ 16384) × (all_rules_words ≤ length rules_words.old) }
    ensures { Loaded (book_at book.now words.now counts) text.now rules_words.new result
        (on_accept (read_lines 2 (rules_step (book_at book.now words.now counts)) 1 no_rules (lines_of text.now)) covered) }
{
    let mut at = 0;
    let mut line = 1;
    let mut known = no_counts();
    while at < text.len() {
        let to = text::lines::line_end(text, at);
        match line_step(book, words, counts, text, at, to, rules_words, known) {
            Err(number) => {
                return Err(Refusal {
                    number,
                    text: RULES,
                    line,
                });
            }
            Ok(more) => {
                known = more;
            }
        }
        at = to + 1;
        line += 1;
    }
    covered_rules(text, rules_words, known)
}

// Reads the rules of a text into the tables, against the book; on a refusal the tables may hold anything.
pub fn load(
    book: &[u8],
    words: &[u32],
    counts: BookCounts,
    text: &[u8],
    rules_words: &mut [u32],
) -> Result<RulesCounts, Refusal>
    requires { BookFits book.now words.now counts × (all_rules_words ≤ length rules_words.old) }
    ensures { Loaded (book_at book.now words.now counts) text.now rules_words.new result
        (read_rules (book_at book.now words.now counts) text.now) }
{
    match text::lines::bytes_read(text, MAX_RULES_BYTES) {
        Err(BytesFault::TooLong) => {
            return Err(Refusal {
                number: TOO_LONG,
                text: RULES,
                line: 0,
            });
        }
        Err(BytesFault::BadLine(line)) => {
            return Err(Refusal {
                number: NOT_ALLOWED,
                text: RULES,
                line: line as u32,
            });
        }
        Ok(()) => {
            return load_lines(book, words, counts, text, rules_words);
        }
    }
}
