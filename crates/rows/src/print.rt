// What the rows print: words, lists, and what an entry answers.
ghost use Rattle.std.specs.Prelude.{◌≡◌, ◌==◌, length, take_while};

use games::Refusal;
use std::fmt::{self, Display};

// A word, as eight hexadecimal digits.
#[derive(Clone, Copy)]
pub struct Word(pub u32);

impl Display for Word {
    fn fmt<W: fmt::Write>(&self, f: &mut fmt::Formatter<W>) -> fmt::Result {
        let word = self.0;
        write!(f, "{word:08X}")
    }
}

// The items of a list, with a space between them.
fn spaced<W: fmt::Write, T: Display + Drop, F: Fn(u32) -> T>(
    f: &mut fmt::Formatter<W>,
    list: &[u32],
    shown: F,
) -> fmt::Result
    requires { F.IsAlwaysCallable shown }
{
    for (i, item) in list.iter().enumerate() {
        if 0 < i {
            f.write_str(" ")?;
        }
        f.write(shown(*item))?;
    }
    Ok(())
}

// A list of numbers, as (1 2).
#[derive(Clone, Copy)]
pub struct Numbers<'a>(pub &'a [u32]);

impl Display for Numbers<'_> {
    fn fmt<W: fmt::Write>(&self, f: &mut fmt::Formatter<W>) -> fmt::Result {
        f.write_str("(")?;
        spaced(f, self.0, |n| n)?;
        f.write_str(")")
    }
}

// All words of a buffer, as [00000001 00000002].
#[derive(Clone, Copy)]
pub struct Words<'a>(pub &'a [u32]);

impl Display for Words<'_> {
    fn fmt<W: fmt::Write>(&self, f: &mut fmt::Formatter<W>) -> fmt::Result {
        f.write_str("[")?;
        spaced(f, self.0, Word)?;
        f.write_str("]")
    }
}

// Why an entry refuses, and where.
#[derive(Clone, Copy)]
pub struct Refused(pub Refusal);

impl Display for Refused {
    fn fmt<W: fmt::Write>(&self, f: &mut fmt::Formatter<W>) -> fmt::Result {
        let number = self.0.reason.number();
        let place = self.0.place;
        write!(f, "refused {number} {place}")
    }
}

// What an entry answers.
#[derive(Clone, Copy)]
pub struct Told<T>(pub Result<T, Refusal>);

impl<T: Display> Display for Told<T> {
    fn fmt<W: fmt::Write>(&self, f: &mut fmt::Formatter<W>) -> fmt::Result {
        match &self.0 {
            Ok(answer) => write!(f, "{answer}"),
            Err(refusal) => write!(f, "{}", Refused(*refusal)),
        }
    }
}

// That a table or a card is fine: what a check answers.
#[derive(Clone, Copy)]
pub struct Fine(pub ());

impl Display for Fine {
    fn fmt<W: fmt::Write>(&self, f: &mut fmt::Formatter<W>) -> fmt::Result {
        f.write_str("fine")
    }
}

// How many words or bytes were written.
#[derive(Clone, Copy)]
pub struct Wrote(pub usize);

impl Display for Wrote {
    fn fmt<W: fmt::Write>(&self, f: &mut fmt::Formatter<W>) -> fmt::Result {
        let count = self.0;
        write!(f, "wrote {count}")
    }
}

// How many words in front are this one.
pub fn in_front(words: &[u32], word: u32) -> usize
    ensures { result ≡ length (take_while (λ w. w == word) words.now) }
{
    words.iter().take_while(|w| **w == word).count()
}
