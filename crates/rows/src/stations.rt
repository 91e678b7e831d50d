// The stations of document 01, their cards, stations with parked states, and tables at the limits.
ghost use Rattle.std.specs.Prelude.{◌≡◌, fold, slice_set};

use crate::print::Word;
use std::fmt::{self, Display};

// What a lent buffer holds before a call.
pub const GUARD: u32 = 0xEEEEEEEE;

pub const A: [u32; 10] = [
    0x10010203, 0x20000001, 0x30000004, 0x40000007, 0x50000002, 0x50010000, 0x50020004, 0x50100004,
    0x50110001, 0x50120004,
];

pub const B: [u32; 10] = [
    0x10010203, 0x20000003, 0x30000004, 0x40000007, 0x50000002, 0x50010000, 0x50020004, 0x50100004,
    0x50110001, 0x50120004,
];

pub const C: [u32; 11] = [
    0x10020203, 0x20000003, 0x30000004, 0x40000001, 0x40010006, 0x50000002, 0x50010000, 0x50020004,
    0x50100004, 0x50110001, 0x50120004,
];

pub const D: [u32; 5] = [0x10010101, 0x20000001, 0x30000001, 0x40000001, 0x50000001];

pub const E: [u32; 5] = [0x10010101, 0x20000001, 0x30000000, 0x40000001, 0x50000000];

pub const F: [u32; 5] = [0x10010101, 0x20000001, 0x30000000, 0x40000001, 0x50000001];

pub const G: [u32; 8] = [
    0x10010104, 0x20000001, 0x30000000, 0x4000000F, 0x50000002, 0x50010004, 0x50020008, 0x50030000,
];

pub const H: [u32; 11] = [
    0x10020203, 0x20000003, 0x30000004, 0x40000003, 0x40010006, 0x50000002, 0x50010000, 0x50020004,
    0x50100004, 0x50110001, 0x50120004,
];

// The stations by name.
pub const STATIONS: [(&str, &[u32]); 8] = [
    ("A", &A),
    ("B", &B),
    ("C", &C),
    ("D", &D),
    ("E", &E),
    ("F", &F),
    ("G", &G),
    ("H", &H),
];

// A with the bit for parked states, and none parked.
pub const MARKED_A: [u32; 11] = [
    0x11010203, 0x20000001, 0x30000004, 0x60000000, 0x40000007, 0x50000002, 0x50010000, 0x50020004,
    0x50100004, 0x50110001, 0x50120004,
];

// E and G with their blocked state parked; E's bad as well; 0 to {1,2}, 1 parked, 2 to 3, 3 blocked.
pub const PARKED_E: [u32; 6] = [
    0x11010101, 0x20000001, 0x30000000, 0x60000001, 0x40000001, 0x50000000,
];

pub const BAD_E: [u32; 6] = [
    0x11010101, 0x20000001, 0x30000001, 0x60000001, 0x40000001, 0x50000000,
];

pub const PARKED_G: [u32; 9] = [
    0x11010104, 0x20000001, 0x30000000, 0x60000008, 0x4000000F, 0x50000002, 0x50010004, 0x50020008,
    0x50030000,
];

pub const PARKED_Q: [u32; 9] = [
    0x11010104, 0x20000001, 0x30000000, 0x60000002, 0x4000000F, 0x50000006, 0x50010000, 0x50020008,
    0x50030000,
];

// 0 dosing, 1 parked, 2 bad, all alike; action 0 takes 0 to 2, action 1 to {0,1}; the start is {0,1}.
pub const MIXED: [u32; 11] = [
    0x11010203, 0x20000003, 0x30000004, 0x60000002, 0x40000007, 0x50000004, 0x50010000, 0x50020004,
    0x50100003, 0x50110000, 0x50120004,
];

pub const MIXED_CARD: [u32; 4] = [0x80210001, 0x90000000, 0xA0100003, 0xB0000000];

// Each state moves to itself, but the last is parked.
pub const PARKED_12: [u32; 17] = [
    0x1101010C, 0x20000FFF, 0x30000000, 0x60000800, 0x40000FFF, 0x50000001, 0x50010002, 0x50020004,
    0x50030008, 0x50040010, 0x50050020, 0x50060040, 0x50070080, 0x50080100, 0x50090200, 0x500A0400,
    0x500B0000,
];

// Each state moves to itself.
pub const STATES_12: [u32; 16] = [
    0x1001010C, 0x20000FFF, 0x30000000, 0x40000FFF, 0x50000001, 0x50010002, 0x50020004, 0x50030008,
    0x50040010, 0x50050020, 0x50060040, 0x50070080, 0x50080100, 0x50090200, 0x500A0400, 0x500B0800,
];

pub const STATES_13: [u32; 17] = [
    0x1001010D, 0x20001FFF, 0x30000000, 0x40001FFF, 0x50000001, 0x50010002, 0x50020004, 0x50030008,
    0x50040010, 0x50050020, 0x50060040, 0x50070080, 0x50080100, 0x50090200, 0x500A0400, 0x500B0800,
    0x500C1000,
];

pub const STATES_0: [u32; 4] = [0x10010100, 0x20000000, 0x30000000, 0x40000000];

// One state, which moves to itself.
pub const ACTIONS_8: [u32; 12] = [
    0x10010801, 0x20000001, 0x30000000, 0x40000001, 0x50000001, 0x50100001, 0x50200001, 0x50300001,
    0x50400001, 0x50500001, 0x50600001, 0x50700001,
];

pub const ACTIONS_9: [u32; 13] = [
    0x10010901, 0x20000001, 0x30000000, 0x40000001, 0x50000001, 0x50100001, 0x50200001, 0x50300001,
    0x50400001, 0x50500001, 0x50600001, 0x50700001, 0x50800001,
];

pub const ACTIONS_0: [u32; 4] = [0x10010001, 0x20000001, 0x30000000, 0x40000001];

pub const OBSERVATIONS_8: [u32; 12] = [
    0x10080101, 0x20000001, 0x30000000, 0x40000001, 0x40010001, 0x40020001, 0x40030001, 0x40040001,
    0x40050001, 0x40060001, 0x40070001, 0x50000001,
];

pub const OBSERVATIONS_9: [u32; 13] = [
    0x10090101, 0x20000001, 0x30000000, 0x40000001, 0x40010001, 0x40020001, 0x40030001, 0x40040001,
    0x40050001, 0x40060001, 0x40070001, 0x40080001, 0x50000001,
];

pub const OBSERVATIONS_0: [u32; 4] = [0x10000101, 0x20000001, 0x30000000, 0x50000001];

pub const A_CARD: [u32; 6] = [
    0x80210002, 0x90000000, 0xA0000001, 0xB0000001, 0xA0100002, 0xB0000000,
];

pub const C_CARD: [u32; 9] = [
    0x80220002, 0x90000000, 0x90010001, 0xA0000001, 0xB000FFFF, 0xB0010001, 0xA0100002, 0xB0000000,
    0xB001FFFF,
];

// F's card, and the one for twelve states that move to themselves.
pub const F_CARD: [u32; 4] = [0x80110001, 0x90000000, 0xA0000001, 0xB0000000];

pub const STATES_12_CARD: [u32; 4] = [0x80110001, 0x90000000, 0xA0000FFF, 0xB0000000];

// A word, and the place where it is put.
#[derive(Clone, Copy)]
pub struct Change(pub usize, pub u32);

impl Change {
    // Puts the word where there is such a place.
    pub fn make(self, words: &mut [u32])
        ensures { words.new ≡ slice_set words.old self.0 self.1 }
    {
        if self.0 < words.len() {
            words[self.0] = self.1;
        }
    }
}

// As 30000001 at 1.
impl Display for Change {
    fn fmt<W: fmt::Write>(&self, f: &mut fmt::Formatter<W>) -> fmt::Result {
        let place = self.0;
        let word = Word(self.1);
        write!(f, "{word} at {place}")
    }
}

// A table or a card with some words changed, one after the other.
pub fn changed<const N: usize>(words: [u32; N], changes: &[Change]) -> [u32; N]
    ensures { result ≡ fold (λ w c. slice_set w c.0 c.1) words.entry changes.now }
{
    let mut result = words;
    for change in changes {
        change.make(&mut result);
    }
    result
}

// The name of a table or a card, what stands before each change, and the words that are changed in it: A with 30000001 at 1.
#[derive(Clone, Copy)]
pub struct With<'a>(pub &'a str, pub &'a str, pub &'a [Change]);

impl Display for With<'_> {
    fn fmt<W: fmt::Write>(&self, f: &mut fmt::Formatter<W>) -> fmt::Result {
        let With(name, before, changes) = *self;
        f.write_str(name)?;
        for change in changes {
            write!(f, "{before}{change}")?;
        }
        Ok(())
    }
}
