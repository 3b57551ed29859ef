// Reading a request, for programs in other languages.
ghost use Rattle.std.specs.Prelude.{◌≡◌, length};
ghost use Rattle.model.specs.Service.{ones};
ghost use Rattle.model.specs.RequestAnswer.{request_read};
ghost use Rattle.telling_words.specs.Told.{RequestTold};

use answer_words::identities::ALL_IDENTITY_WORDS;
use telling_words::tell_request;

// Reads a request: true, the category's number and the identities, or false and the refusal. An identity has three words: where its actor's
// name starts in the request, the name's length, and the node's number. What does not apply is 0. The working memory ends all ones.
#[unsafe(no_mangle)]
pub extern "C" fn hifmuneth_read_request(
    book: &[u8],
    rules: &[u8],
    request: &[u8],
    work: &mut [u32],
    category: &mut usize,
    count: &mut usize,
    identities: &mut [usize; ALL_IDENTITY_WORDS],
    number: &mut u32,
    text: &mut u32,
    line: &mut u32,
) -> bool
    ensures answer { RequestTold (request_read (length work.old) book.now rules.now request.now) result
        category.new count.new identities.new number.new text.new line.new }
    ensures cleared { work.new ≡ ones (length work.old) }
{
    let read = service::read_request(book, rules, request, work);
    tell_request(read, category, count, identities, number, text, line)
}
