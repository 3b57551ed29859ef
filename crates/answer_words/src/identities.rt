// The identities of a request in words.
ghost use Rattle.std.specs.Prelude.{◌≡◌};
ghost use Rattle.answer_words.specs.Words.{identity_row, identity_words};

use crate::rows::{Told, words_of};
use model::{Identity, RequestRead};

// Start, length and node of each identity.
const IDENTITY_WORDS: usize = 3;

pub const ALL_IDENTITY_WORDS: usize = 24;

impl Told<IDENTITY_WORDS> for Identity {
    ghost row_of = { identity_row };

    fn row(self) -> [usize; IDENTITY_WORDS] {
        [self.actor.start, self.actor.length, self.node]
    }
}

// The words of a request's identities.
pub fn identity_words(read: RequestRead) -> [usize; ALL_IDENTITY_WORDS]
    ensures { result ≡ identity_words read }
{
    words_of::<_, IDENTITY_WORDS, _, _>(read.identities, read.count)
}
