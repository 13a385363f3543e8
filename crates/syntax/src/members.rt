// Goes over the members of a set.
ghost use Rattle.std.specs.Prelude.{◌≡◌, ℕ, ◌<◌, ◌||◌, false, slice_index_or};

use crate::lexer::Lexer;

// A member: its first and last code, and its place.
#[derive(Clone, Copy, Debug, PartialEq, Eq)]
pub struct Member {
    pub first: u8,
    pub last: u8,
    pub place: usize,
}

impl Member {
    ghost use Rattle.syntax.specs.Members.{covers, runs_back};

    // Marks the codes that it covers: none, where it runs backwards.
    fn mark(self, table: &mut [bool; 256])
        ensures { (c : ℕ) → c < 256 → slice_index_or table.new c false ≡ (slice_index_or table.old c false || covers self c) }
    {
        for code in usize::from(self.first)..usize::from(self.last) + 1 {
            table[code] = true;
        }
    }

    pub(crate) fn runs_back(self) -> bool
        ensures { result ≡ runs_back self }
    {
        self.last < self.first
    }
}

// The members of a set that are left, with their place.
#[derive(Clone, Copy, Debug, PartialEq, Eq)]
pub struct Members<'a> {
    pub lexer: Lexer<'a>,
}

impl<'a> Iterator for Members<'a> {
    ghost use Rattle.std.specs.Iterator.{YieldsFirst, item_count};
    ghost use Rattle.syntax.specs.Members.{listed};

    type Item = Member;

    ghost next_gives = { YieldsFirst listed };

    ghost remaining = { item_count listed };

    fn next(&mut self) -> Option<Member> {
        let mut lexer = self.lexer;
        let member = lexer.member()?;
        self.lexer = lexer;
        Some(member)
    }
}

impl<'a> Members<'a> {
    ghost use Rattle.std.specs.Prelude.{find, option_map};
    ghost use Rattle.std.specs.List.{list_any};
    ghost use Rattle.syntax.specs.Members.{covers, listed, runs_back};

    // The codes that some member covers, each member read once and not once for each code.
    pub(crate) fn codes(self) -> [bool; 256]
        ensures { (c : ℕ) → c < 256 → slice_index_or result c false ≡ list_any (λ k. covers k c) (listed self.entry) }
    {
        let mut codes = [false; 256];
        for member in self {
            member.mark(&mut codes);
        }
        codes
    }

    // The place of the first range whose second end is below its first.
    pub(crate) fn first_reversed(mut self) -> Option<usize>
        ensures { result ≡ option_map (λ k. k.place) (find runs_back (listed self.entry)) }
    {
        let reversed = self.find(|k| k.runs_back())?;
        Some(reversed.place)
    }
}
