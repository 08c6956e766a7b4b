// Bytes written one behind the other into a lent list: what every writer of sheets and of printed lines stands on.

#![tactic(auto)]

ghost use Rattle.std.specs.Prelude.{[], ◌∷◌, length};
ghost use Rattle.byte_writer.specs.Contract.{HasRoom, Appends};

// A lent list, and the place behind what has been written into it.
#[derive(Drop)]
pub struct Writer<'a> {
    pub out: &'a mut [u8],
    pub at: usize,
}

impl Writer<'_> {
    // Appends one byte.
    #[inline(always)]
    pub fn put_byte(&mut self, byte: u8)
        requires { HasRoom self.old 1 }
        ensures { Appends self.old (byte ∷ []) self.new }
    {
        self.out[self.at] = byte;
        self.at += 1;
    }

    // Appends these bytes.
    pub fn put(&mut self, bytes: &[u8])
        requires { HasRoom self.old (length bytes.now) }
        ensures { Appends self.old bytes.now self.new }
    {
        // Kept: byte by byte. `copy_from_slice` of as many bytes as are lent is a call of `memmove`, a name that whoever links the archive would have to bring.
        for &byte in bytes {
            self.put_byte(byte);
        }
    }
}
