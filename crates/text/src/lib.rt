// Text as bytes: a writer into a lent buffer, and readers that answer the place behind what they read.
#![tactic(auto)]

ghost use Rattle.std.specs.Prelude.{◌≡◌, [], ◌∷◌, ◌+◌, ◌≤◌, ◌<◌, length, take, IfOk, IfSome, IfNone};
ghost use Rattle.text.specs.Text.{room};
ghost use Rattle.text.specs.Puts.{Puts};
ghost use Rattle.text.specs.Decimal.{decimal, digit_at};
ghost use Rattle.text.specs.Read.{misplaced as is_misplaced, skipped, read_decimal};

// A lent buffer, and the place where writing goes on. Past the buffer's end nothing is stored, but the place moves on all the same: a text is
// measured by writing it into a buffer of one byte. That the place stays a number (`room`) is asked at each call, of the bytes that it writes:
// no type has it, for each call writes another number of bytes.
#[derive(Drop)]
pub struct Writer<'b> {
    out: &'b mut [u8],
    at: usize,
}

impl<'b> Writer<'b> {
    // A writer that goes on at a place.
    pub fn at(out: &'b mut [u8], place: usize) -> Writer<'b>
        ensures same_buffer { result.out.ghost_name ≡ out.entry.ghost_name }
        ensures unwritten { result.out.now ≡ out.old }
        ensures place { result.at ≡ place }
    {
        Writer { out, at: place }
    }

    // The place behind what was written.
    pub fn place(&self) -> usize
        ensures { result ≡ self.now.at }
    {
        self.at
    }

    // What stands in the buffer before that place.
    pub fn written(self) -> &'b [u8]
        ensures { result.now ≡ take self.entry.at self.entry.out.now }
    {
        let Writer { out, at } = self;
        let end = at.min(out.len());
        &out[..end]
    }

    // Writes one byte.
    pub fn put(&mut self, b: u8)
        requires { self.old.at + 1 < room }
        ensures { Puts (b ∷ []) self.old self.new }
    {
        if self.at < self.out.len() {
            self.out[self.at] = b;
        }
        self.at += 1;
    }

    // Writes the bytes of s: at once where they fit (so the text of a card is written up to a fifth faster), else one by one.
    pub fn put_bytes(&mut self, s: &[u8])
        requires { self.old.at + length s.now < room }
        ensures { Puts s.now self.old self.new }
    {
        let end = self.at + s.len();
        if self.out.len() < end {
            for b in s {
                self.put(*b);
            }
            return;
        }
        sets::copy(s, &mut self.out[self.at..end]);
        self.at = end;
    }

    // Writes n in decimal: at most 20 bytes. By hand, as is reading below: the clauses say each byte, also past the room; `Display` says
    // nothing of these.
    pub fn put_decimal(&mut self, n: u64)
        requires { self.old.at + 20 < room }
        ensures { Puts (decimal n) self.old self.new × (self.new.at ≤ self.old.at + 20) }
    {
        if n < 10 {
            return self.put(b'0' + n as u8);
        }
        self.put_decimal(n / 10);
        self.put(b'0' + (n % 10) as u8);
    }
}

// The place of the first byte that is wrong, which is the text's end where the text stops short.
#[derive(Clone, Copy, PartialEq, Eq, Debug)]
pub struct Wrong {
    pub place: usize,
}

// Reads the bytes of s at a place. The answer is the place behind them.
pub fn skip(text: &[u8], at: usize, s: &[u8]) -> Result<usize, Wrong>
    ensures { result ≡ skipped s.now text.now at }
{
    for (i, b) in s.iter().enumerate() {
        if text.get(at + i).copied() != Some(*b) {
            return Err(Wrong { place: at + i });
        }
    }
    Ok(at + s.len())
}

// The digit at a place. By hand, with `misplaced`: the clauses say which byte is wrong.
fn digit_at(text: &[u8], i: usize) -> Option<u64>
    ensures some { IfSome result (λ d. (d ≡ digit_at text.now i) × (d ≤ 9)) }
    ensures none { IfNone result (9 < digit_at text.now i) }
{
    match *text.get(i)? {
        b @ b'0'..=b'9' => Some((b - b'0') as u64),
        _ => None,
    }
}

// Whether the digit d may not follow the number v. The bound is tested without the sum, which may not fit.
fn misplaced(v: u64, d: u64, most: u64) -> bool
    ensures { result ≡ is_misplaced most v d }
{
    if v == 0 || most < d {
        return true;
    }
    (most - d) / 10 < v
}

// Reads a number of at most `most` in decimal at a place, as `put_decimal` writes it: a digit at least, no leading zero, no sign. The answer is
// the number and the place behind it.
pub fn read_decimal(text: &[u8], at: usize, most: u64) -> Result<(u64, usize), Wrong>
    ensures read { result ≡ read_decimal most text.now at }
    ensures bounded { IfOk result (λ r. r.0 ≤ most) }
{
    let wrong = Err(Wrong { place: at });
    let Some(first) = digit_at(text, at) else {
        return wrong;
    };
    if most < first {
        return wrong;
    }
    let mut v = first;
    for i in at + 1..text.len() {
        let Some(d) = digit_at(text, i) else {
            return Ok((v, i));
        };
        if misplaced(v, d, most) {
            return Err(Wrong { place: i });
        }
        v = v * 10 + d;
    }
    Ok((v, text.len()))
}
