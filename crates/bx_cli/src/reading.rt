//! What reads the words of a command line.

ghost use Rattle.std.specs.Prelude.{ℕ, List, Result};

use bx_request::Request;
use bx_words::{Refusal, read_words};

/// A system that tells what words ask for.
pub trait ReadsWords: AllocGlobal {
    ghost use Rattle.std.specs.Borrow.{Bor};
    ghost use Rattle.bx_request.specs.declared.request.Request.{Request as PlainRequest};
    ghost use Rattle.bx_words.specs.declared.reading.Refusal.{Refusal as PlainRefusal};

    /// These words ask for this, or are refused so.
    ghost reads: { List (Bor (List ℕ)) → Result PlainRequest PlainRefusal → Type 0 };

    /// What words ask for, or why they ask for nothing.
    fn read_words<'a>(&self, words: &'a [&'a str]) -> Result<Request<'a>, Refusal>
        ensures { reads words.now result };
}

impl<H: AllocGlobal> ReadsWords for H {
    ghost use Rattle.bx_words.specs.Asked.{AreWordsRead};

    ghost reads = { AreWordsRead };

    fn read_words<'a>(&self, words: &'a [&'a str]) -> Result<Request<'a>, Refusal> {
        read_words(self.alloc(), words)
    }
}
