// The solving program: the words of a table on standard input, the verdict and the card on standard output. What it prints is put into a
// buffer by functions whose contracts say what it is; the program reads, calls them, and writes the buffer out.
#![tactic(auto)]

ghost use Rattle.std.specs.Prelude.{◌≡◌, ◌+◌, ◌*◌, ◌/◌, ◌%◌, ◌^◌, ◌≤◌, ◌<◌, length, OnOk};
ghost use Rattle.std.specs.Io.KnownBytes.{Appends};
ghost use Rattle.text.specs.Puts.{Puts};
ghost use Rattle.printout.specs.Lines.{unwritten_line};
ghost use Rattle.words.specs.Bytes.{words_of};
ghost use Rattle.solve.specs.Program.{input_bytes, buffer_words, blank, text_bytes, table_text, program_text};
ghost use Rattle.solve.specs.Program.{reply_to, reply_text, Sent};

use cards::Card;
use games::Reason;
use solver::Verdict;
use std::io::{self, Write};
use tables::Table;
use text::Writer;

// The most bytes that are taken for a table.
const INPUT_BYTES: usize = 4096;

const INPUT_WORDS: usize = INPUT_BYTES / 4;

// Work for the most states; document 01 gives the card as many words.
const BUFFER_WORDS: usize = 4 * games::MAX_SETS as usize;

// A text has no more lines than the card room has words.
const TEXT_BYTES: usize = BUFFER_WORDS * printout::LINE_BYTES;

// Takes the verdict apart: a card, a round number or a refusal. (That the writer stands at the front is a clause here and below: a type for
// it would be made once, and be left with the first byte.)
fn report(table: &[u32], work: &mut [u32], card: &mut [u32], out: &mut Writer)
    requires { (length card.old ≡ buffer_words) × (out.old.at ≡ 0) }
    ensures { Puts (table_text table.now work.old card.old) out.old out.new × (out.new.at ≤ text_bytes) }
{
    let answer = solver::solve(table, work, card);
    let Ok(verdict) = answer else {
        let Err(refusal) = answer else {
            return;
        };
        return printout::put_refusal(out, refusal);
    };
    let Verdict::Yes(settled, cells) = verdict else {
        let Verdict::No(round) = verdict else {
            return;
        };
        return printout::put_no(out, round);
    };
    let length = games::card_length(cells, Table { words: table }.observations());
    printout::put_yes(out, settled, cells);
    printout::put_card(
        out,
        Card {
            words: &card[..length],
        },
    )
}

// The text for the bytes of a whole number of words.
fn answer_words(bytes: &[u8], out: &mut Writer)
    requires { (length bytes.now ≤ input_bytes) × (length bytes.now % 4 ≡ 0) × (out.old.at ≡ 0) }
    ensures { Puts (table_text (words_of (length bytes.now / 4) bytes.now) blank blank) out.old out.new
        × (out.new.at ≤ text_bytes) }
{
    let mut room = sets::filled::<u32, INPUT_WORDS>(0);
    let mut work = sets::filled::<u32, BUFFER_WORDS>(0);
    let mut card = sets::filled::<u32, BUFFER_WORDS>(0);
    let words = &mut room[..bytes.len() / 4];
    words::decode(bytes, words);
    report(words, &mut work, &mut card, out)
}

// The text for the bytes of the input.
fn respond(bytes: &[u8], out: &mut Writer)
    requires { out.old.at ≡ 0 }
    ensures { Puts (program_text bytes.now) out.old out.new × (out.new.at ≤ text_bytes) }
{
    if INPUT_BYTES < bytes.len() {
        return printout::put_refusal(out, Reason::BadLength.at(INPUT_WORDS + 1));
    }
    if bytes.len() % 4 != 0 {
        return printout::put_refusal(out, Reason::BadLength.at(bytes.len() / 4));
    }
    answer_words(bytes, out)
}

// Where the program writes: its output, or its errors.
#[derive(Clone, Copy, PartialEq, Eq, Debug)]
enum Stream {
    Output,
    Errors,
}

// What is written, and where. (No `Result`: what goes among the errors is a text as well, and writing it out is the same call.)
#[derive(Clone, Copy)]
struct Reply<'t> {
    to: Stream,
    text: &'t [u8],
}

// The answer to what was read; where reading failed, the line that says so, among the errors.
fn reply_to<'t>(input: io::Result<&[u8]>, out: &'t mut [u8]) -> Reply<'t>
    requires { text_bytes ≤ length out.old }
    ensures { (result.to ≡ reply_to input.entry) × (result.text.now ≡ reply_text input.entry) }
{
    let mut text = Writer::at(out, 0);
    match input {
        Err(_) => {
            printout::put_unread(&mut text);
            Reply {
                to: Stream::Errors,
                text: text.written(),
            }
        }
        Ok(bytes) => {
            respond(bytes, &mut text);
            Reply {
                to: Stream::Output,
                text: text.written(),
            }
        }
    }
}

// Writes the reply to its stream, and nothing to the other.
fn write_to<O: Write, E: Write>(out: &mut O, err: &mut E, reply: Reply) -> io::Result<()>
    ensures { Sent reply.entry.to reply.entry.text.now result (O.contents out.old) (O.contents out.new) (E.contents err.old) (E.contents err.new) }
{
    match reply.to {
        Stream::Output => out.write_all(reply.text),
        Stream::Errors => err.write_all(reply.text),
    }
}

// Writes out the reply to what was read.
fn answer<O: Write, E: Write>(out: &mut O, err: &mut E, input: io::Result<&[u8]>) -> io::Result<()>
    ensures { Sent (reply_to input.entry) (reply_text input.entry) result (O.contents out.old) (O.contents out.new) (E.contents err.old) (E.contents err.new) }
{
    let mut text = sets::filled::<u8, TEXT_BYTES>(0);
    write_to(out, err, reply_to(input, &mut text))
}

// The text was not written, or not all of it.
fn tell_unwritten<E: Write>(err: &mut E) -> io::Result<()>
    ensures { OnOk result (Appends (E.contents err.old) (E.contents err.new) unwritten_line) }
{
    let mut line = [0u8; printout::LINE_BYTES];
    let mut text = Writer::at(&mut line, 0);
    printout::put_unwritten(&mut text);
    err.write_all(text.written())
}

// One byte more than a table may have, so that a longer input is seen.
fn main(rt: HostRuntime) {
    let mut bytes = [0u8; INPUT_BYTES + 1];
    let input = words::read_full(&mut rt.stdin(), &mut bytes);
    let (output, errors) = (rt.stdout(), rt.stderr());
    let mut errors = io::writer(&errors);
    if answer(&mut io::writer(&output), &mut errors, input).is_err() {
        let _ = tell_unwritten(&mut errors);
    }
}
