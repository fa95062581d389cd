// Bytes that are written into lent ones, one piece after the other; and the refusal where these are too few.
ghost use Rattle.std.specs.Prelude.{◌≡◌, ◌≤◌, length};

#[derive(Clone, Copy, PartialEq, Eq, Debug)]
pub struct NoRoom;

// Lent bytes, and up to where they are written.
#[derive(Drop)]
pub struct Writer<'a> {
    out: &'a mut [u8],
    at: usize,
    ghost within: { at ≤ length out.now },
}

impl<'a> Writer<'a> {
    ghost use Rattle.rules.specs.Writing.{the_writing, lender, unwritten, Writes, HasRoom};

    // Writes from the beginning on.
    pub fn new(out: &'a mut [u8]) -> Writer<'a>
        ensures same_reference { lender result ≡ out.entry.ghost_name }
        ensures unwritten { the_writing result ≡ unwritten out.old }
    {
        Writer { out, at: 0 }
    }

    // Writes behind bytes that are written already.
    pub fn behind(out: &'a mut [u8], at: usize) -> Writer<'a>
        requires { at ≤ length out.old }
        ensures same_reference { lender result ≡ out.entry.ghost_name }
        ensures from { the_writing result ≡ record { out = out.old; at = at } }
    {
        Writer { out, at }
    }

    // How many bytes are written.
    pub fn at(&self) -> usize
        ensures { result ≡ (the_writing self.now).at }
    {
        self.at
    }

    // Writes bytes behind what is written.
    pub fn put(&mut self, bytes: &[u8])
        requires { HasRoom (the_writing self.old) bytes.now }
        ensures { Writes self.old self.new bytes.now }
    {
        let Writer { out, at } = self;
        out[*at..*at + bytes.len()].copy_from_slice(bytes);
        *at += bytes.len();
    }
}
