// The lamp on the wall panel: whether the list of the same texts has a row. It asks for the rows with no row word to put one in, so that the search ends at the
// first that it finds.
#![tactic(auto)]

ghost use Rattle.model.specs.Demands.{LampCalled};

use asking::ask;
use model::Refusal;

// Answers whether a row may be had, or the refusal that the list gives. The working memory ends all ones.
pub fn lamp(
    book: &[u8],
    rules: &[u8],
    query: &[u8],
    request: &[u8],
    work: &mut [u32],
) -> Result<bool, Refusal>
    ensures { LampCalled book.now rules.now query.now request.now work.old
        work.new result }
{
    let mut rows = [0u32; 0];
    // No `?`: each answer has a line of its own, which an edit in must-fail/ can make wrong by itself.
    match ask(book, rules, query, request, &mut rows, work) {
        Ok(found) => Ok(found.is_none()),
        Err(refusal) => Err(refusal),
    }
}
