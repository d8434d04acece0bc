// How a film is lent and read.
ghost use Rattle.std.specs.Prelude.{◌≡◌};
ghost use Rattle.structure.specs.Source.{whole_file, moov_alone, strictly, length_of};

// Whether refusal 11 is asked for; whether the lent bytes are a moov atom alone, and then the length of its file.
#[derive(Clone, Copy)]
pub struct Source {
    pub strict: bool,
    pub alone: bool,
    pub length: u64,
}

impl Source {
    // A whole file, read by default.
    pub fn whole() -> Source
        ensures { result ≡ whole_file }
    {
        Source {
            strict: false,
            alone: false,
            length: 0,
        }
    }

    // A moov atom alone, of a file of that length, read by default.
    pub fn of_moov(length: u64) -> Source
        ensures { result ≡ moov_alone length }
    {
        let mut source = Source::whole();
        source.alone = true;
        source.length = length;
        source
    }

    // The same, with refusal 11 asked for.
    pub fn strictly(self) -> Source
        ensures { result ≡ strictly self }
    {
        let mut source = self;
        source.strict = true;
        source
    }

    // The length of the film's file. Of a whole file it is that of the lent bytes: a length stated beside them is not believed.
    pub fn length_of(self, lent: &[u8]) -> u64
        ensures { result ≡ length_of self lent.now }
    {
        if self.alone {
            self.length
        } else {
            lent.len() as u64
        }
    }
}
