// The table as a type.
ghost use Rattle.std.specs.Prelude.{◌≤◌, length};
ghost use Rattle.names.specs.Table.{Chained};

use crate::Kind;

// A symbol table in lent words, over the bytes of a file. It can be searched, and a word has room for every place of the file.
#[derive(Drop)]
pub struct Table<'a> {
    pub file: &'a [u8],
    pub words: &'a mut [u16],
    pub ghost chained: { Chained file.now words.now },
    pub ghost short: { length file.now ≤ 65535 },
}

impl<'a> Table<'a> {
    ghost use Rattle.std.specs.Prelude.{◌≡◌, ◌+◌, ◌*◌, ◌<◌};
    ghost use Rattle.names.specs.Table.{number_of, fits, last_of, entries, offset_of};
    ghost use Rattle.names.specs.Change.{Pushed, Popped};
    ghost use Rattle.names.specs.Same.{Same};

    // The last entry with the name and a kind in the range.
    pub fn find(&self, name: &[u8], lowest: Kind, highest: Kind) -> Option<usize>
        ensures { result ≡ last_of (fits name.now (number_of lowest) (number_of highest)) (entries self.now.file.now self.now.words.now) }
    {
        crate::find(self.file, self.words, name, lowest, highest)
    }

    // Where the name of entry k stands.
    pub fn offset_of(&self, k: usize) -> usize
        requires { 1026 + 3 * k + 1 < length self.now.words.now }
        ensures { result ≡ offset_of self.now.words.now k }
    {
        crate::offset_of(self.words, k)
    }

    // One entry more, if there is room for it and a name stands there.
    pub fn push(&mut self, offset: usize, kind: Kind)
        ensures { Pushed self.old.file.now self.old.words.now offset (number_of kind) self.new.words.now × Same self.old self.new }
    {
        crate::push(self.file, self.words, offset, kind);
    }

    // One entry less, if there is one: the last goes.
    pub fn pop(&mut self)
        ensures { Popped self.old.file.now self.old.words.now 1 self.new.words.now × Same self.old self.new }
    {
        crate::pop(self.file, self.words);
    }

    // n entries less: the last n go.
    pub fn pop_last(&mut self, n: u64)
        ensures { Popped self.old.file.now self.old.words.now n self.new.words.now × Same self.old self.new }
    {
        crate::pop_last(self.file, self.words, n);
    }
}
