// A line that is written into a lent buffer: bytes, words and numbers are put behind what stands there. Callers keep that there is room for the most
// that it can be. Nothing is refused here.
ghost use Rattle.std.specs.Prelude.{[], ◌∷◌, ◌++◌, ◌+◌, ◌≤◌, ◌<◌, length};
ghost use Rattle.report.specs.Text.{decimal_by, decimal};
ghost use Rattle.report.specs.Written.{most_digits, Put};

use crate::text::Text;

// The buffer, and how many of its bytes are written.
#[derive(Drop)]
pub(crate) struct Line<'a> {
    pub(crate) text: &'a mut [u8],
    pub(crate) size: usize,
}

impl Line<'_> {
    // Puts one byte.
    pub(crate) fn put_byte(&mut self, byte: u8)
        requires { self.old.size < length self.old.text.now }
        ensures { Put 1 self.old (byte ∷ []) self.new }
    {
        self.text[self.size] = byte;
        self.size += 1;
    }

    // Puts the bytes of a word.
    pub(crate) fn put_word(&mut self, word: &[u8])
        requires { self.old.size + length word.now ≤ length self.old.text.now }
        ensures { Put (length word.now) self.old word.now self.new }
    {
        let next = self.size + word.len();
        self.text[self.size..next].copy_from_slice(word);
        self.size = next;
    }

    // Puts a number in at most so many digits (rule 14.4): those before the last, and then the last.
    fn put_digits(&mut self, digits: usize, n: u64)
        requires { self.old.size + digits ≤ length self.old.text.now }
        ensures { Put digits self.old (decimal_by digits n) self.new }
    {
        if digits == 0 {
            return;
        }
        if 10 <= n {
            self.put_digits(digits - 1, n / 10);
        }
        self.put_byte(b'0' + (n % 10) as u8);
    }

    // Puts a number in decimal digits.
    pub(crate) fn put_decimal(&mut self, n: u64)
        requires { self.old.size + most_digits ≤ length self.old.text.now }
        ensures { Put most_digits self.old (decimal n) self.new }
    {
        self.put_digits(Text::DIGITS, n);
    }

    // Puts a word and a number behind it.
    pub(crate) fn put_named(&mut self, word: &[u8], n: u64)
        requires { self.old.size + length word.now + most_digits ≤ length self.old.text.now }
        ensures { Put (length word.now + most_digits) self.old (word.now ++ decimal n) self.new }
    {
        self.put_word(word);
        self.put_decimal(n);
    }
}
