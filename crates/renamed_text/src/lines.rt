// A line of a book: its first word says which of the words behind it name a node.
ghost use Rattle.std.specs.Prelude.{true, false, [], ◌∷◌, take, drop};
ghost use Rattle.model.specs.Renaming.{first_word, node_words};
ghost use Rattle.renamed_text.specs.Marks.{marked_in};
ghost use Rattle.renamed_text.specs.Progress.{WordAsked, LineAsked, Goes, LineGone};

use crate::names::Progress;
use crate::{names, words};
use book_tables::BookCounts;

// Reads the label, the first end and the second end of a relationship, in a line up to an end.
fn put_ends(
    text: &[u8],
    to: usize,
    words: &[u32],
    counts: BookCounts,
    marked: &[bool; 256],
    out: &mut [u8],
    progress: Progress,
) -> Progress
    requires { WordAsked text.now to words.now counts progress }
    ensures { Goes (marked_in text.now words.now counts marked.now) text.now to
        out.old progress (false ∷ true ∷ true ∷ []) out.new result }
{
    let label = words::line_word(text, to, progress.seen);
    let read = Progress {
        seen: label.end,
        put: progress.put,
        at: progress.at,
    };
    let named = names::put_name(text, to, words, counts, marked, out, read);
    names::put_name(text, to, words, counts, marked, out, named)
}

// Reads the first word of a line up to an end, and those behind it that it says are names of nodes.
fn put_words(
    text: &[u8],
    to: usize,
    words: &[u32],
    counts: BookCounts,
    marked: &[bool; 256],
    out: &mut [u8],
    progress: Progress,
) -> Progress
    requires { WordAsked text.now to words.now counts progress }
    ensures { Goes (marked_in text.now words.now counts marked.now) text.now to
        out.old progress (false ∷ node_words (first_word (drop progress.seen (take to text.now)))) out.new result }
{
    let first = words::line_word(text, to, progress.seen);
    let start = first.start;
    let end = first.end;
    let read = Progress {
        seen: end,
        put: progress.put,
        at: progress.at,
    };
    if compare::same_bytes(&text[start..end], b"node") {
        return names::put_name(text, to, words, counts, marked, out, read);
    }
    if compare::same_bytes(&text[start..end], b"rel") {
        return put_ends(text, to, words, counts, marked, out, read);
    }
    read
}

// Reads a line with its line feed.
pub fn put_line(
    text: &[u8],
    words: &[u32],
    counts: BookCounts,
    marked: &[bool; 256],
    out: &mut [u8],
    progress: Progress,
) -> Progress
    requires { LineAsked text.now words.now counts progress }
    ensures { LineGone (marked_in text.now words.now counts marked.now) text.now
        out.old progress out.new result }
{
    let to = text::lines::line_end(text, progress.seen);
    let read = put_words(text, to, words, counts, marked, out, progress);
    let end = if to < text.len() { to + 1 } else { to };
    Progress {
        seen: end,
        put: read.put,
        at: read.at,
    }
}
