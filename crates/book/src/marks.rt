// A set of ASes as bits of a word: it has each AS that was added, and may have others.
ghost use Rattle.std.specs.Prelude.{◌≡◌};
ghost use Rattle.book.specs.Marks.{mark_of, has_mark, Adds};

use spec::IsdAsn;

#[derive(Clone, Copy)]
pub(crate) struct Marks(u64);

// The bit of an AS: its lowest six bits.
fn mark(a: IsdAsn) -> u64
    ensures { result ≡ mark_of a }
{
    a.0 & 63
}

impl Marks {
    pub(crate) fn none() -> Marks
        ensures { result.0 ≡ 0 }
    {
        Marks(0)
    }

    pub(crate) fn has(self, a: IsdAsn) -> bool
        ensures { result ≡ has_mark self.0 a }
    {
        (self.0 >> mark(a)) & 1 == 1
    }

    pub(crate) fn with(self, a: IsdAsn) -> Marks
        ensures { Adds a self.0 result.0 }
    {
        Marks(self.0 | (1 << mark(a)))
    }
}
