// Text in a lent buffer.
#![tactic(auto)]

ghost use Rattle.std.specs.Prelude.{◌≡◌, ◌∷◌, [], ◌++◌};
ghost use Rattle.text.specs.Put.{Put};
ghost use Rattle.text.specs.Digits.{decimal, hexadecimal};
ghost use Rattle.text.specs.Lines.{field, last_field, header, turn_line, refused_line, standing_line};
ghost use Rattle.text.specs.Text.{text_bytes, text_end, text_name, Puts};

// Puts a byte at a place, if there is room, and answers the place after it.
fn put_at(buffer: &mut [u8], at: usize, byte: u8) -> usize
    ensures { Put buffer.old buffer.new at (byte ∷ []) result }
{
    // No get_mut: after it the proof knows nothing of what was written.
    if at < buffer.len() {
        buffer[at] = byte;
        return at + 1;
    }
    at
}

// A text in a lent buffer, up to its end. Each put_ method puts its bytes behind the text so far, as far as there is room.
#[derive(Drop)]
pub struct Text<'a> {
    buffer: &'a mut [u8],
    end: usize,
}

impl<'a> Text<'a> {
    // A text that begins at any place, also past the buffer's end.
    pub fn new(buffer: &'a mut [u8], end: usize) -> Text<'a>
        ensures same { text_name result ≡ buffer.entry.ghost_name }
        ensures bytes { text_bytes result ≡ buffer.old }
        ensures end { text_end result ≡ end }
    {
        Text { buffer, end }
    }

    // The place after the text.
    pub fn end(&self) -> usize
        ensures { result ≡ text_end self.now }
    {
        self.end
    }

    pub fn put_byte(&mut self, byte: u8)
        ensures { Puts self.old self.new (byte ∷ []) }
    {
        self.end = put_at(self.buffer, self.end, byte);
    }

    pub fn put_bytes(&mut self, bytes: &[u8])
        ensures { Puts self.old self.new bytes.now }
    {
        // Byte by byte: copying the part that fits costs more, and so does writing the text's end back with each byte.
        let mut end = self.end;
        for &byte in bytes {
            end = put_at(self.buffer, end, byte);
        }
        self.end = end;
    }

    pub fn put_decimal(&mut self, n: usize)
        ensures { Puts self.old self.new (decimal n) }
    {
        let mut digits = [0; 20];
        // No Display: what is written by it is known only where it answers Ok. The language has no From<usize> for u64.
        let k = io::decimal(n as u64, &mut digits);
        self.put_bytes(&digits[..k]);
    }

    pub fn put_hexadecimal(&mut self, word: u16)
        ensures { Puts self.old self.new (hexadecimal word) }
    {
        let mut digits = [0; 16];
        // No Display, as above.
        let k = io::hex(u64::from(word), 4, &mut digits);
        self.put_bytes(&digits[..k]);
    }

    // A number, and the space that parts it from the next field.
    #[tactic(auto, unfolding(crate::specs::Lines::field))]
    pub fn put_field(&mut self, n: usize)
        ensures { Puts self.old self.new (field n) }
    {
        self.put_number(n, b' ');
    }

    // A number that ends its line.
    #[tactic(auto, unfolding(crate::specs::Lines::last_field))]
    pub fn put_last(&mut self, n: usize)
        ensures { Puts self.old self.new (last_field n) }
    {
        self.put_number(n, b'\n');
    }

    fn put_number(&mut self, n: usize, last: u8)
        ensures { Puts self.old self.new (decimal n ++ last ∷ []) }
    {
        self.put_decimal(n);
        self.put_byte(last);
    }

    #[tactic(auto, unfolding(crate::specs::Lines::header))]
    pub fn put_header(&mut self)
        ensures { Puts self.old self.new header }
    {
        // A fixed byte string, as REFUSED and STANDING are (docs/FORMS.md).
        self.put_bytes(b"TURN PROC CALL PHASE DID\n");
    }

    // The line of a turn, with the word that tells its answer.
    pub fn put_turn(&mut self, turn: usize, process: usize, call: usize, phase: usize, word: &[u8])
        ensures { Puts self.old self.new (turn_line turn process call phase word.now) }
    {
        self.put_field(turn);
        self.put_field(process);
        self.put_field(call);
        self.put_field(phase);
        self.put_bytes(word);
        self.put_byte(b'\n');
    }

    pub fn put_refused(&mut self, number: usize, block: usize)
        ensures { Puts self.old self.new (refused_line number block) }
    {
        self.put_bytes(b"REFUSED ");
        self.put_field(number);
        self.put_last(block);
    }

    pub fn put_standing(&mut self, number: usize)
        ensures { Puts self.old self.new (standing_line number) }
    {
        self.put_bytes(b"STANDING ");
        self.put_last(number);
    }
}
