// The lines that timeread prints, as ASCII at the start of a lent line.
// No line is longer than 64 bytes: the longest, of the counts, has at most 59. What stands behind a line in the lent memory is free.
#![tactic(auto)]

ghost use Rattle.std.specs.Prelude.{◌≡◌, [], ◌∷◌, ◌++◌, ◌+◌, ◌≤◌, ◌<◌, length, take};
ghost use Rattle.lines.specs.Text.{glyph, digits_of, digit_count, decimal, pair_of, clock_of, report_line, counts_line, refused_line};

use timecode::Time;

// Puts a byte behind what stands before the place, in any lent memory that has room for it.
pub fn put(line: &mut [u8], at: usize, byte: u8) -> usize
    requires { at < length line.old }
    ensures { (result ≡ at + 1) × (length line.new ≡ length line.old) × (take result line.new ≡ take at line.old ++ (byte ∷ [])) }
{
    line[at] = byte;
    at + 1
}

// Puts a text behind what stands before the place, in any lent memory that has room for it.
pub fn put_text(line: &mut [u8], at: usize, text: &[u8]) -> usize
    requires { at + length text.now ≤ length line.old }
    ensures { (result ≡ at + length text.now) × (length line.new ≡ length line.old) × (take result line.new ≡ take at line.old ++ text.now) }
{
    line[at..at + text.len()].copy_from_slice(text);
    at + text.len()
}

// The ASCII code of a digit below 16.
fn glyph_of(digit: u64) -> u8
    requires { digit < 16 }
    ensures { result ≡ glyph digit }
{
    if digit < 10 {
        48 + digit as u8
    } else {
        87 + digit as u8
    }
}

// Puts the last digits of a number, as many as the width, the highest first.
fn put_digits(line: &mut [u8], at: usize, number: u64, base: u64, width: usize) -> usize
    requires { (at + width ≤ length line.old) × (2 ≤ base) × (base ≤ 16) }
    ensures { (result ≡ at + width) × (length line.new ≡ length line.old) × (take result line.new ≡ take at line.old ++ digits_of base width number) }
{
    let mut rest = number;
    for i in 0..width {
        line[at + (width - 1 - i)] = glyph_of(rest % base);
        rest /= base;
    }
    at + width
}

// How many decimal digits a number has, with no zero in front. No `for`: how often the loop turns is the answer.
fn digit_count(number: u64) -> usize
    ensures { (result ≡ digit_count number) × (1 ≤ result) × (result ≤ 20) }
{
    let mut rest = number;
    let mut k = 1;
    while 10 <= rest {
        rest /= 10;
        k += 1;
    }
    k
}

// A line that is being put: its text is the first bytes, as many as are filled.
#[derive(Clone, Copy)]
struct Line {
    bytes: [u8; 64],
    filled: usize,
    ghost long: { length bytes ≡ 64 },
    ghost within: { filled ≤ 64 },
}

impl Line {
    fn new() -> Line
        ensures { result.filled ≡ 0 }
    {
        Line {
            bytes: [0; 64],
            filled: 0,
        }
    }

    fn put(&mut self, byte: u8)
        requires { self.old.filled < 64 }
        ensures { (self.new.filled ≡ self.old.filled + 1) × (take self.new.filled self.new.bytes ≡ take self.old.filled self.old.bytes ++ (byte ∷ [])) }
    {
        self.filled = put(&mut self.bytes, self.filled, byte);
    }

    fn put_text(&mut self, text: &[u8])
        requires { self.old.filled + length text.now ≤ 64 }
        ensures { (self.new.filled ≡ self.old.filled + length text.now) × (take self.new.filled self.new.bytes ≡ take self.old.filled self.old.bytes ++ text.now) }
    {
        self.filled = put_text(&mut self.bytes, self.filled, text);
    }

    fn put_numeral(&mut self, number: u64, base: u64, width: usize)
        requires { (self.old.filled + width ≤ 64) × (2 ≤ base) × (base ≤ 16) }
        ensures { (self.new.filled ≡ self.old.filled + width) × (take self.new.filled self.new.bytes ≡ take self.old.filled self.old.bytes ++ digits_of base width number) }
    {
        self.filled = put_digits(&mut self.bytes, self.filled, number, base, width);
    }

    fn put_decimal(&mut self, number: u64)
        requires { self.old.filled + 20 ≤ 64 }
        ensures { (self.new.filled ≤ self.old.filled + 20) × (take self.new.filled self.new.bytes ≡ take self.old.filled self.old.bytes ++ decimal number) }
    {
        self.put_numeral(number, 10, digit_count(number));
    }

    // Puts two digits and what separates them from the next.
    fn put_pair(&mut self, number: u64, separator: u8)
        requires { self.old.filled + 3 ≤ 64 }
        ensures { (self.new.filled ≡ self.old.filled + 3) × (take self.new.filled self.new.bytes ≡ take self.old.filled self.old.bytes ++ pair_of number separator) }
    {
        self.put_numeral(number, 10, 2);
        self.put(separator);
    }

    // Puts hh:mm:ss.cc and a space; the added second is one more than the second before it, 23:59:60.
    fn put_clock(&mut self, hundredths: u32)
        requires { self.old.filled + 12 ≤ 64 }
        ensures { (self.new.filled ≡ self.old.filled + 12) × (take self.new.filled self.new.bytes ≡ take self.old.filled self.old.bytes ++ clock_of hundredths) }
    {
        let c = hundredths as u64;
        let added = (hundredths / Time::DAY_LENGTH) as u64;
        let usual = c / 100 - added;
        self.put_pair(usual / 60 / 60, b':');
        self.put_pair(usual / 60 % 60, b':');
        self.put_pair(usual % 60 + added, b'.');
        self.put_pair(c % 100, b' ');
    }
}

// The line of a report: how many bytes of the lent line it is.
pub fn report_line(line: &mut [u8; 64], element: u64, time: Time, control: u64) -> usize
    ensures { (result ≤ 64) × (length line.new ≡ 64) × (take result line.new ≡ report_line element time control) }
{
    let mut text = Line::new();
    text.put_decimal(element);
    text.put(b' ');
    text.put_numeral(time.day as u64, 10, 3);
    text.put(b' ');
    text.put_clock(time.hundredths);
    text.put_numeral(control, 16, 12);
    text.put(b'\n');
    *line = text.bytes;
    text.filled
}

// The last line: how many elements and reports there were.
pub fn counts_line(line: &mut [u8; 64], elements: u64, reports: u64) -> usize
    ensures { (result ≤ 64) × (length line.new ≡ 64) × (take result line.new ≡ counts_line elements reports) }
{
    let mut text = Line::new();
    text.put_text(b"elements ");
    text.put_decimal(elements);
    text.put_text(b" reports ");
    text.put_decimal(reports);
    text.put(b'\n');
    *line = text.bytes;
    text.filled
}

// The line of a refusal, with document 01's number.
pub fn refused_line(line: &mut [u8; 64], number: u64) -> usize
    ensures { (result ≤ 64) × (length line.new ≡ 64) × (take result line.new ≡ refused_line number) }
{
    let mut text = Line::new();
    text.put_text(b"refused ");
    text.put_decimal(number);
    text.put(b'\n');
    *line = text.bytes;
    text.filled
}
