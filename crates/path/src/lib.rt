// The path: the ForAlls around a place of the constraint, by value.
#![tactic(auto)]

ghost use Rattle.std.specs.Prelude.{◌≡◌, [], ◌∷◌, ◌++◌, ◌+◌, ◌<◌, ◌≤◌, length};
ghost use Rattle.path.specs.Offsets.{entries};

// The offset of each ForAll's name, the outermost first. A file has at most 60,000 bytes: two bytes hold an offset.
#[derive(Clone, Copy, Debug)]
pub struct Path {
    pub offsets: [u16; 256],
    pub depth: usize,
}

impl Path {
    // No ForAlls.
    pub fn empty() -> Path
        ensures { (entries result ≡ []) × (result.depth ≡ 0) × (length result.offsets ≡ 256) }
    {
        Path {
            offsets: [0; 256],
            depth: 0,
        }
    }

    // One more ForAll, inside the others.
    pub fn push(mut self, at: usize) -> Path
        requires { (self.depth < 256) × (at < 65536) }
        ensures { (entries result ≡ entries self ++ at ∷ []) × (result.depth ≡ self.depth + 1) × (length result.offsets ≡ 256) }
    {
        self.offsets[self.depth] = at as u16;
        self.depth += 1;
        self
    }

    // The offsets, the outermost first.
    pub fn offsets(&self) -> &[u16]
        requires { self.now.depth ≤ 256 }
        ensures { (result.now ≡ entries self.now) × (length result.now ≡ self.now.depth) }
    {
        &self.offsets[..self.depth]
    }
}
