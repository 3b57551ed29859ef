// The lower set of a category: itself, and all that is in the sets of those it is over.
ghost use Rattle.std.specs.Prelude.{◌≡◌, ◌||◌, ℕ, eqb};
ghost use Rattle.bits.specs.Word.{bit};
ghost use Rattle.book_tables.specs.View.{names_at};
ghost use Rattle.rules_tables.specs.Layout.{over_from};
ghost use Rattle.rules_tables.specs.Fits.{below_some, LowerAsked};

use crate::{CATEGORIES, CATEGORY_NAMES, CATEGORY_WORDS, LOWER_SET, OVER, names};

// The lower set of category k, which is over as many earlier ones as are given, their names being stored.
pub fn lower_set(text: &[u8], words: &[u32], k: usize, over: usize) -> u32
    requires { LowerAsked text.now words.now k over }
    ensures { (m : ℕ) → bit result m ≡ (eqb m k
        || below_some text.now words.now k m (names_at text.now words.now (over_from k) over)) }
{
    let mut set = bits::with(0, k);
    for i in 0..over {
        let name = names::name_at(text, words, CATEGORIES + CATEGORY_WORDS * k + OVER + i);
        let j = book_tables::names::find_name(text, words, CATEGORY_NAMES, k, name);
        set = set | words[CATEGORIES + CATEGORY_WORDS * j + LOWER_SET];
    }
    set
}
