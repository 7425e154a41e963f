// The line that the trial program writes.
ghost use Rattle.std.specs.Prelude.{◌≡◌, ◌∷◌, [], ◌++◌, ◌+◌, ◌≤◌, ◌<◌, length};
ghost use Rattle.trial.specs.Trials.{says_outcome};
ghost use Rattle.trial.specs.Lines.{leading_of, spelled_of, decimal_of, octal_of, sum_line_of, line_of, Written};
ghost use Rattle.trial.specs.ForCode.Texts.{text_of};

use crate::trials::Sum;

// Writes the line of a sum, or of the number that refused it, over the start of the room, and answers its length.
// What refused is told by its number, since any number may have refused.
pub fn line(t: Result<Sum, u64>, room: &mut [u8; 128]) -> usize
    ensures written { Written room.old 0 (line_of (says_outcome t)) room.new result }
    ensures within { result ≤ 128 }
{
    let Text { chars, end } = Text::of(t);
    room[..end].copy_from_slice(&chars[..end]);
    end
}

// The line as far as it is written: the first `end` of the characters.
// Its digits are set one by one, since no clause says that a `write!` into fixed room does not fail.
#[derive(Drop)]
struct Text {
    chars: [u8; 128],
    end: usize,
}

impl Text {
    // The line of a sum, or of the number that refused it.
    fn of(t: Result<Sum, u64>) -> Text
        ensures { (text_of result ≡ line_of (says_outcome t)) × (result.end ≤ 122) }
    {
        let mut text = Text {
            chars: [0; 128],
            end: 0,
        };
        match t {
            Ok(sum) => text.sum(sum),
            Err(n) => text.decimal(n, b'\n'),
        }
        text
    }

    // "stop, completed, C, L, S in decimal, then cell 9 in sixteen octal digits, one space between and a line feed after"
    fn sum(&mut self, sum: Sum)
        requires { self.old.end ≡ 0 }
        ensures { (text_of self.new ≡ text_of self.old ++ sum_line_of sum) × (self.new.end ≤ 122) }
    {
        self.decimal(sum.stop, b' ');
        self.decimal(sum.completed, b' ');
        self.decimal(u64::from(sum.c), b' ');
        self.decimal(u64::from(sum.l), b' ');
        self.decimal(u64::from(sum.s), b' ');
        self.octal(sum.cell, b'\n');
    }

    // A number in decimal, and a character after it.
    fn decimal(&mut self, n: u64, after: u8)
        requires { self.old.end + 21 ≤ 128 }
        ensures { (text_of self.new ≡ text_of self.old ++ decimal_of n after) × (self.new.end ≤ self.old.end + 21) }
    {
        let mut ds = [0; 20];
        word::to_digits(n, 10, &mut ds);
        let k = leading(&ds);
        self.spell(&ds[k..], after);
    }

    // A word in sixteen octal digits, and a character after it.
    fn octal(&mut self, w: u64, after: u8)
        requires { self.old.end + 17 ≤ 128 }
        ensures { (text_of self.new ≡ text_of self.old ++ octal_of w after) × (self.new.end ≤ self.old.end + 17) }
    {
        let mut ds = [0; 16];
        word::to_digits(w, 8, &mut ds);
        self.spell(&ds, after);
    }

    // The characters of digits, and one after them.
    fn spell(&mut self, ds: &[u8], after: u8)
        requires { self.old.end + length ds.now < 128 }
        ensures { (text_of self.new ≡ text_of self.old ++ spelled_of ds.now after) × (self.new.end ≡ self.old.end + length ds.now + 1) }
    {
        for d in ds {
            self.push(b'0' + *d % 10);
        }
        self.push(after);
    }

    fn push(&mut self, c: u8)
        requires { self.old.end < 128 }
        ensures { (text_of self.new ≡ text_of self.old ++ c ∷ []) × (self.new.end ≡ self.old.end + 1) }
    {
        self.chars[self.end] = c;
        self.end += 1;
    }
}

// How many digits are leading zeros. The last digit is none.
fn leading(ds: &[u8; 20]) -> usize
    ensures { (result ≡ leading_of ds.now) × (result < 20) }
{
    ds.iter().position(|d| *d != 0).unwrap_or(ds.len() - 1)
}
