// What the writers are told of a task: the encoder.
ghost use Rattle.std.specs.Prelude.{◌<◌, ℕ, get_or};
ghost use Rattle.names.specs.Table.{Chained};

// A symbol table of the declared names, in lent words, with the file that they stand in. It can be searched. That the file's elements are bytes
// is kept with it, since a slice in a struct does not tell.
#[derive(Clone, Copy)]
pub struct Encoder<'a> {
    pub file: &'a [u8],
    pub words: &'a [u16],
    pub ghost chained: { Chained file.now words.now },
    pub ghost bytes: { (i : ℕ) → get_or file.now i 0 < 256 },
}
