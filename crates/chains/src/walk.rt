// The numbers of a key's chain, one after the other.
ghost use Rattle.std.specs.Prelude.{◌+◌, ◌<◌, length};
ghost use Rattle.std.specs.Iterator.{at_most};
ghost use Rattle.chains.specs.Chains.{word_at};
ghost use Rattle.chains.specs.Walks.{Falls, Follows, OnChain};

// A walk along a chain: the words, where their links begin, and where it stands, 1 + the number that comes next, or 0.
#[derive(Drop)]
pub struct Chain<'a> {
    words: &'a [u32],
    links: usize,
    entry: usize,
}

// The numbers of a key's chain, from the front on.
#[inline]
pub fn numbers(words: &[u32], heads: usize, links: usize, key: usize) -> Chain<'_>
    requires { (heads + key < length words.now) × Falls words.now links (word_at words.now (heads + key)) }
    ensures { OnChain words.now links (word_at words.now (heads + key)) result }
{
    Chain {
        words,
        links,
        entry: words[heads + key] as usize,
    }
}

// The numbers that stand behind a number in its chain.
#[inline]
pub fn behind(words: &[u32], links: usize, n: usize) -> Chain<'_>
    requires { (links + n < length words.now) × Falls words.now links (word_at words.now (links + n)) }
    ensures { OnChain words.now links (word_at words.now (links + n)) result }
{
    Chain {
        words,
        links,
        entry: words[links + n] as usize,
    }
}

impl<'a> Iterator for Chain<'a> {
    type Item = usize;

    ghost can_next = { λ s. Falls s.words.now s.links s.entry };

    ghost remaining = { λ s. at_most s.entry };

    ghost next_gives = { Follows };

    #[inline]
    fn next(&mut self) -> Option<usize> {
        if self.entry == 0 {
            return None;
        }
        let n = self.entry - 1;
        self.entry = self.words[self.links + n] as usize;
        Some(n)
    }
}
