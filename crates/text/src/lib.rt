// The writers of a listing's lines, into a text buffer that the caller lends.
#![tactic(auto)]

ghost use Rattle.std.specs.Prelude.{◌≡◌, [], ◌∷◌, ◌++◌, ◌+◌, ◌≤◌, ◌<◌, length, drop};
ghost use Rattle.text.specs.Lines.{number_of, line_of, refused_line, accepted_line, newline};
ghost use Rattle.text.specs.Writing.{HasRoom, Wrote};

// The names of the kinds, each between its line's two spaces.
const NAMES: [[u8; 5]; 9] = [
    *b" NOP ", *b" FLU ", *b" END ", *b" VFE ", *b" CUR ", *b" IDL ", *b" SFL ", *b" OBJ ",
    *b" GWS ",
];

// A text buffer that is lent, and where the next piece goes.
#[derive(Drop)]
pub struct Page<'a> {
    pub text: &'a mut [u8],
    pub at: usize,
}

// The decimal digits of n, at the end of an array that has room for those of 64 bits. By hand: std's `write!` says what it wrote where it
// succeeded, and not that it succeeds where there is room.
#[tactic(auto, using(crate::proofs::Numbers::digit_laws))]
fn decimal(n: u64, digits: &mut [u8; 20]) -> &[u8]
    ensures { (result.now ≡ number_of n) × (length result.now ≤ 20) }
{
    let mut rest = n;
    for i in (0..20).rev() {
        digits[i] = b'0' + (rest % 10) as u8;
        rest /= 10;
        if rest == 0 {
            return &digits[i..];
        }
    }
    digits
}

impl Page<'_> {
    pub fn put(&mut self, piece: &[u8])
        requires { HasRoom self.old (length piece.now) }
        ensures { Wrote self.old piece.now self.new }
    {
        let end = self.at + piece.len();
        self.text[self.at..end].copy_from_slice(piece);
        self.at = end;
    }

    fn number(&mut self, n: u64)
        requires { HasRoom self.old 20 }
        ensures { Wrote self.old (number_of n) self.new × (self.new.at ≤ self.old.at + 20) }
    {
        let mut digits = [0u8; 20];
        self.put(decimal(n, &mut digits));
    }

    // Two numbers with a text before each, and the line's end.
    fn print(&mut self, before: &[u8], first: u64, between: &[u8], second: u64)
        requires { HasRoom self.old (length before.now + length between.now + 41) }
        ensures { Wrote self.old (before.now ++ number_of first ++ between.now ++ number_of second ++ newline) self.new
            × (self.new.at ≤ self.old.at + length before.now + length between.now + 41) }
    {
        self.put(before);
        self.number(first);
        self.put(between);
        self.number(second);
        self.put(b"\n");
    }

    // The line of a command. Its kind is a number, as word 0 of its record has it.
    pub fn line(&mut self, place: u32, kind: u32, total: u32)
        requires { HasRoom self.old 46 × (kind < 9) }
        ensures { Wrote self.old (line_of place kind total) self.new × (self.new.at ≤ self.old.at + 46) }
    {
        self.print(b"", place as u64, &NAMES[kind as usize], total as u64);
    }

    #[tactic(auto, unfolding(crate::specs::Lines::refused_line))]
    pub fn refused(&mut self, number: u64, place: u64)
        requires { HasRoom self.old 53 }
        ensures { Wrote self.old (refused_line number place) self.new × (self.new.at ≤ self.old.at + 53) }
    {
        self.print(b"refused ", number, b" at ", place);
    }

    #[tactic(auto, unfolding(crate::specs::Lines::accepted_line))]
    pub fn accepted(&mut self, commands: u64, dwords: u64)
        requires { HasRoom self.old 51 }
        ensures { Wrote self.old (accepted_line commands dwords) self.new × (self.new.at ≤ self.old.at + 51) }
    {
        self.print(b"accepted ", commands, b" ", dwords);
    }
}
