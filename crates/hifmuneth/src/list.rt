// Listing the rows, for programs in other languages.
ghost use Rattle.std.specs.Prelude.{◌≡◌, length};
ghost use Rattle.model.specs.Service.{ones, list_service};
ghost use Rattle.telling.specs.Told.{RowsTold};

use telling::counts::tell_rows;

// Lists the rows that may be had into the row words, one after another, a word for each node's number: true, how many rows there are and how
// many Return names each answers, or false and the refusal. Row words past the rows are all ones, after a refusal all of them. What does not
// apply is 0. The working memory ends all ones.
#[unsafe(no_mangle)]
pub extern "C" fn hifmuneth_list(
    book: &[u8],
    rules: &[u8],
    query: &[u8],
    request: &[u8],
    rows: &mut [u32],
    work: &mut [u32],
    count: &mut usize,
    width: &mut usize,
    number: &mut u32,
    text: &mut u32,
    line: &mut u32,
) -> bool
    ensures answer { RowsTold (list_service (length work.old) (length rows.old) book.now rules.now
        query.now request.now).answer result count.new width.new number.new text.new
        line.new }
    ensures rows { rows.new ≡ (list_service (length work.old) (length rows.old) book.now rules.now
        query.now request.now).rows }
    ensures cleared { work.new ≡ ones (length work.old) }
{
    let listed = listing::list(book, rules, query, request, rows, work);
    tell_rows(listed, count, width, number, text, line)
}
