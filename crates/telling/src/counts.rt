// Telling answers that are counts: what does not apply is 0.
ghost use Rattle.model.specs.Answers.{book_answer, rules_answer, writer_answer, list_answer};
ghost use Rattle.telling.specs.Told.{BookTold, NamesTold, RulesTold, CountTold, RowsTold};

use crate::tell;
use model::{BookSize, Refusal, RowsSize, RulesSize};

// Tells what reading a book answers.
pub fn tell_book(
    read: Result<BookSize, Refusal>,
    nodes: &mut usize,
    relationships: &mut usize,
    entries: &mut usize,
    number: &mut u32,
    text: &mut u32,
    line: &mut u32,
) -> bool
    ensures { BookTold (book_answer read) result nodes.new relationships.new entries.new
        number.new text.new line.new }
{
    let size = read.unwrap_or(BookSize {
        nodes: 0,
        relationships: 0,
        entries: 0,
    });
    *nodes = size.nodes;
    *relationships = size.relationships;
    *entries = size.entries;
    tell(&read, number, text, line)
}

// Tells how many nodes a book has whose names are given.
pub fn tell_names(
    read: Result<BookSize, Refusal>,
    count: &mut usize,
    number: &mut u32,
    text: &mut u32,
    line: &mut u32,
) -> bool
    ensures { NamesTold (book_answer read) result count.new number.new text.new line.new }
{
    *count = read.map_or(0, |size| size.nodes);
    tell(&read, number, text, line)
}

// Tells what reading rules answers.
pub fn tell_rules(
    read: Result<RulesSize, Refusal>,
    categories: &mut usize,
    policies: &mut usize,
    number: &mut u32,
    text: &mut u32,
    line: &mut u32,
) -> bool
    ensures { RulesTold (rules_answer read) result categories.new policies.new
        number.new text.new line.new }
{
    let size = read.unwrap_or(RulesSize {
        categories: 0,
        policies: 0,
    });
    *categories = size.categories;
    *policies = size.policies;
    tell(&read, number, text, line)
}

// Tells how long a written query is.
pub fn tell_length(
    written: Result<usize, Refusal>,
    size: &mut usize,
    number: &mut u32,
    text: &mut u32,
    line: &mut u32,
) -> bool
    ensures { CountTold (writer_answer written) result size.new number.new text.new line.new }
{
    *size = written.unwrap_or(0);
    tell(&written, number, text, line)
}

// Tells how many rows a list has, and how many Return names each answers.
pub fn tell_rows(
    listed: Result<RowsSize, Refusal>,
    rows: &mut usize,
    width: &mut usize,
    number: &mut u32,
    text: &mut u32,
    line: &mut u32,
) -> bool
    ensures { RowsTold (list_answer listed) result rows.new width.new number.new text.new line.new }
{
    let size = listed.unwrap_or(RowsSize { rows: 0, width: 0 });
    *rows = size.rows;
    *width = size.width;
    tell(&listed, number, text, line)
}
