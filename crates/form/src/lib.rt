// A strict reader of text, byte by byte: it stands at a place of a text, and each token leads it on.
#![tactic(auto)]

ghost use Rattle.std.specs.Prelude.{◌≡◌, ◌^◌, ◌<◌, ◌≤◌, false, true, ◌*◌, ◌-◌, ◌+◌, length, MatchOption, IfSome};
ghost use Rattle.form.specs.Form.{byte_at, digit_fits};
ghost use Rattle.form.specs.Places.{next_byte, Digit, Said};

use text::Wrong;

// How a number is written: its base and how many digits; `power` numbers have so many.
#[derive(Clone, Copy)]
pub struct Numeral {
    pub base: u32,
    pub width: u32,
    pub power: u32,
    ghost binary_up: { 2 ≤ base },
    ghost decimal_down: { base ≤ 10 },
    ghost counted: { power ≡ base ^ width },
    ghost few: { power ≤ 100000 },
}

// The least and the most that a number can be. The library's `RangeInclusive` is not Copy.
#[derive(Clone, Copy)]
pub struct Range {
    pub least: u32,
    pub most: u32,
}

impl Range {
    ghost use Rattle.std.specs.Prelude.{◌≡◌, ◌≤◌, ◌↔◌, IsTrue};

    // The numbers from one to another.
    pub fn of(least: u32, most: u32) -> Range
        ensures { (result.least ≡ least) × (result.most ≡ most) }
    {
        Range { least, most }
    }

    // A number alone.
    pub fn only(x: u32) -> Range
        ensures { (result.least ≡ x) × (result.most ≡ x) }
    {
        Range::of(x, x)
    }

    // Whether a number lies in the range.
    pub fn holds(self, v: u32) -> bool
        ensures { IsTrue result ↔ ((self.least ≤ v) × (v ≤ self.most)) }
    {
        (self.least <= v) & (v <= self.most)
    }
}

// A place in a text: what comes next. Where reading is refused, the error is the place alone: why is always that the text departs from
// its form.
#[derive(Clone, Copy)]
pub struct Reader<'t> {
    pub text: &'t [u8],
    pub at: usize,
    ghost within: { at ≤ length text.now },
}

// The byte at a place, where the text has one.
pub fn byte_at(text: &[u8], at: usize) -> Option<u8>
    ensures there { next_byte result ≡ byte_at text.now at }
    ensures small { IfSome result (λ b. b < 256) }
{
    text.get(at).copied()
}

// What a byte says as a digit of any base (`text::digit_at` is that of a text's place, in base 10). By hand: its clause says which byte is which digit; the library's parsing says nothing of a byte.
fn digit(b: u8, base: u32) -> Option<u32>
    requires { base ≤ 10 }
    ensures { Digit base b result }
{
    let d = u32::from(b.checked_sub(b'0')?);
    (d < base).then_some(d)
}

// The number that v becomes by a digit more, of weight w, if that can still come to lie in the range.
fn grown(n: Numeral, range: Range, w: u32, v: u32, b: Option<u8>) -> Option<u32>
    requires { (w ≤ 100000) × (v ≤ 1000000) }
    ensures { MatchOption result (digit_fits n.base range.least range.most w v (next_byte b) ≡ false) (λ x. (digit_fits n.base range.least range.most w v (next_byte b) ≡ true) × (x ≡ v + (next_byte b - 48) * w)) }
{
    let x = v + digit(b?, n.base)? * w;
    ((x <= range.most) & (range.least < x + w)).then_some(x)
}

// The number that so many digits from a place on say, if they are digits.
fn value_at(text: &[u8], at: usize, n: Numeral) -> Option<u32>
    requires { at ≤ length text.now }
    ensures { IfSome result (λ v. Said text.now at n.base n.width v) }
{
    let mut v = 0;
    for b in text.get(at..at + n.width as usize)? {
        v = v * n.base + digit(*b, n.base)?;
    }
    Some(v)
}

impl<'t> Reader<'t> {
    ghost use Rattle.std.specs.Prelude.{◌≡◌, ◌<◌};
    ghost use Rattle.form.specs.Cursors.{Passes, Gives, Ends};

    // A fixed run of bytes. Each token refuses a text at the first byte that it does not allow.
    pub fn expect(&mut self, word: &[u8]) -> Result<(), Wrong>
        ensures { Passes self.old self.new word.now result }
    {
        self.at = text::skip(self.text, self.at, word)?;
        Ok(())
    }

    // A number in a range, digit by digit, up to the first that can't be.
    fn number_by_digits(&mut self, n: Numeral, range: Range) -> Result<u32, Wrong>
        requires { range.most < n.power }
        ensures { Gives self.old self.new n range result }
    {
        let mut v = 0;
        let mut w = n.power;
        for i in 0..n.width {
            w = w / n.base;
            let place = self.at + i as usize;
            v = grown(n, range, w, v, byte_at(self.text, place)).ok_or(Wrong { place })?;
        }
        self.at += n.width as usize;
        Ok(v)
    }

    // A number in a range. It is read at once; only one that can't be is looked at digit by digit.
    pub fn number(&mut self, n: Numeral, range: Range) -> Result<u32, Wrong>
        requires { range.most < n.power }
        ensures { Gives self.old self.new n range result }
    {
        if let Some(v) = value_at(self.text, self.at, n) {
            if range.holds(v) {
                self.at += n.width as usize;
                return Ok(v);
            }
        }
        self.number_by_digits(n, range)
    }

    // The end of the text.
    pub fn finish(&self) -> Result<(), Wrong>
        ensures { Ends self.now result }
    {
        match byte_at(self.text, self.at) {
            None => Ok(()),
            Some(_) => Err(Wrong { place: self.at }),
        }
    }
}
