// Bytes put into an output, one after another. The methods are for other crates, which see to the room themselves; none is handed to a host.
#![tactic(auto)]

ghost use Rattle.std.specs.Prelude.{[], ◌∷◌, length};
ghost use Rattle.putting.specs.Adds.{Adds, HasRoom};

// An output, and the place up to which it is written.
#[derive(Drop)]
pub struct Text<'a> {
    pub out: &'a mut [u8],
    pub at: usize,
}

impl<'a> Text<'a> {
    pub fn byte(&mut self, byte: u8)
        requires { HasRoom self.old 1 }
        ensures { Adds (byte ∷ []) 1 self.old self.new }
    {
        self.out[self.at] = byte;
        self.at += 1;
    }

    pub fn word(&mut self, word: &[u8])
        requires { HasRoom self.old (length word.now) }
        ensures { Adds word.now (length word.now) self.old self.new }
    {
        let end = self.at + word.len();
        self.out[self.at..end].copy_from_slice(word);
        self.at = end;
    }
}
