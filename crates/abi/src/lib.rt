// The functions of the library for C and Rust. Each fills three words of answer: 0 and two values (done), 1 and the round number (no),
// 2, number and place (refused).
#![tactic(auto)]

ghost use Rattle.std.specs.Prelude.{◌≡◌, [], ◌∷◌, ℕ, take};
ghost use Rattle.games.specs.Answers.{leaves};
ghost use Rattle.games.specs.Words.{game};
ghost use Rattle.tables.specs.Check.{checked};
ghost use Rattle.fields.specs.Write.{write_of};
ghost use Rattle.judge.specs.Judge.{judged};
ghost use Rattle.lists.specs.Lists.{joined, met};
ghost use Rattle.lists.specs.Plain.{OfEither, OfBoth, MaximalOf};
ghost use Rattle.cards.specs.Run.{opened, stepped};
ghost use Rattle.runner.specs.Runs.{standing, ran_into};
ghost use Rattle.show.specs.Show.{found};
ghost use Rattle.certificates.specs.Certificate.{certified, Safe};
ghost use Rattle.solver.specs.Solve.{buffers, solved, Promise};
ghost use Rattle.solver.specs.Solve.{Answer};
ghost use Rattle.trimmer.specs.Trimmer.{buffers as rooms, trimmed_into, Trims};
ghost use Rattle.trimmer.specs.Trimmer.{Answer as TrimAnswer};
ghost use Rattle.kiss_writer.specs.Write.{written_to, Writes};
ghost use Rattle.kiss_writer.specs.Write.{Answer as WriteAnswer};
ghost use Rattle.kiss_reader.specs.Read.{read_into, Reads};
ghost use Rattle.kiss_reader.specs.Read.{Answer as ReadAnswer};
ghost use Rattle.answers.specs.Words.{done, check_words, solve_words, judge_words, written_words, move_words, ran_words, show_words, trim_words, text_words, read_words};
ghost use Rattle.abi.specs.Calls.{told, rewritten, ComesBack, numbers_of, card_told, given, ReadsAs};

use cards::Card;
use games::{Cell, Observation, Refusal};
use tables::Fields;

// 0, 0, 0: the words are a table.
#[unsafe(no_mangle)]
pub extern "C" fn kirdanzug_check_table(table: &[u32], answer: &mut [u64; 3])
    ensures { answer.new ≡ check_words (checked table.now) }
{
    *answer = answers::words(tables::check(table));
}

// The numbers of cells and observations, read only of words that are a card.
#[tactic(auto, unfolding(crate::specs::Calls::numbers_of))]
fn card_numbers(card: &[u32]) -> Result<(u32, u32), Refusal>
    ensures { result ≡ numbers_of card.now }
{
    let card = Card::of(card)?;
    Ok((card.cells(), card.observations()))
}

// 0, cells, observations: the words are a card.
#[unsafe(no_mangle)]
pub extern "C" fn kirdanzug_check_card(card: &[u32], answer: &mut [u64; 3])
    ensures { answer.new ≡ card_told card.now }
{
    *answer = answers::words(card_numbers(card));
}

// Yes: 0, settling count, cells, and the card in front of its room. No: 1, round number, 0.
#[unsafe(no_mangle)]
pub extern "C" fn kirdanzug_solve(
    table: &[u32],
    work: &mut [u32],
    card: &mut [u32],
    answer: &mut [u64; 3],
)
    ensures determined { leaves answer.new (buffers work.new card.new)
        ≡ told solve_words (solved table.now work.old card.old) }
    ensures promised { (r : Answer) → answer.new ≡ solve_words r
        → Promise table.now work.old card.old r card.new }
{
    *answer = answers::words(solver::solve(table, work, card));
}

// 0, 1 or 0, 0: is the set good for k rounds?
#[unsafe(no_mangle)]
pub extern "C" fn kirdanzug_judge(table: &[u32], mask: u32, k: u32, answer: &mut [u64; 3])
    ensures { answer.new ≡ judge_words (judged table.now mask k) }
{
    *answer = answers::words(judge::judge(table, mask, k));
}

// 0, length, 0: the maximal sets of both lists.
#[unsafe(no_mangle)]
pub extern "C" fn kirdanzug_join(
    n: u32,
    first: &[u32],
    second: &[u32],
    out: &mut [u32],
    answer: &mut [u64; 3],
)
    ensures out_after { leaves answer.new out.new
        ≡ told written_words (joined n first.now second.now out.old) }
    ensures plain { (w : ℕ) → answer.new ≡ done w 0
        → MaximalOf (OfEither first.now second.now) (take w out.new) }
{
    *answer = answers::words(lists::join(n, first, second, out));
}

// 0, length, 0: the maximal common parts of one set from each list.
#[unsafe(no_mangle)]
pub extern "C" fn kirdanzug_meet(
    n: u32,
    first: &[u32],
    second: &[u32],
    out: &mut [u32],
    answer: &mut [u64; 3],
)
    ensures out_after { leaves answer.new out.new
        ≡ told written_words (met n first.now second.now out.old) }
    ensures plain { (w : ℕ) → answer.new ≡ done w 0
        → MaximalOf (OfBoth first.now second.now) (take w out.new) }
{
    *answer = answers::words(lists::meet(n, first, second, out));
}

// 0, length, 0: the fields written as a table's words, which read back as these fields.
#[unsafe(no_mangle)]
pub extern "C" fn kirdanzug_write(
    n: u32,
    a: u32,
    o: u32,
    start: u32,
    bad: u32,
    parked_marked: bool,
    parked: u32,
    shown: &[u32; tables::SHOWN_SLOTS],
    moves: &[u32; tables::MOVE_SLOTS],
    out: &mut [u32],
    answer: &mut [u64; 3],
)
    ensures out_after { leaves answer.new out.new
        ≡ told written_words (write_of (given n a o start bad parked_marked parked shown.now moves.now) out.old) }
    ensures read_back { ReadsAs (given n a o start bad parked_marked parked shown.now moves.now)
        answer.new out.new }
{
    let f = Fields {
        states: n,
        actions: a,
        observations: o,
        start,
        bad,
        marked: parked_marked,
        parked,
        shown: *shown,
        moves: *moves,
    };
    *answer = answers::words(fields::write(f, out));
}

// Reads the table into fields, and writes these.
#[tactic(auto, unfolding(crate::specs::Calls::rewritten))]
fn rewrite(table: &[u32], out: &mut [u32]) -> Result<usize, Refusal>
    ensures { leaves result out.new ≡ rewritten table.now out.old }
{
    fields::write(fields::read(table)?, out)
}

// 0, length, 0: the table read into fields and written again; an accepted table comes back as it was.
#[unsafe(no_mangle)]
pub extern "C" fn kirdanzug_rewrite(table: &[u32], out: &mut [u32], answer: &mut [u64; 3])
    ensures out_after { leaves answer.new out.new
        ≡ told written_words (rewritten table.now out.old) }
    ensures same { ComesBack table.now out.old
        (leaves answer.new out.new) }
{
    *answer = answers::words(rewrite(table, out));
}

// 0, cell entered, its action: the card opened with the first observation.
#[unsafe(no_mangle)]
pub extern "C" fn kirdanzug_open(card: &[u32], observation: u32, answer: &mut [u64; 3])
    ensures { answer.new ≡ move_words (opened card.now observation) }
{
    *answer = answers::words(cards::begin(card, Observation(observation)));
}

// 0, cell entered, its action: a later observation in a cell.
#[unsafe(no_mangle)]
pub extern "C" fn kirdanzug_step(card: &[u32], cell: u32, observation: u32, answer: &mut [u64; 3])
    ensures { answer.new ≡ move_words (stepped card.now cell observation) }
{
    *answer = answers::words(cards::step(card, Cell(cell), Observation(observation)));
}

// 0, observations taken, 0: the card run over the observations, and the action after each in front of `out`.
#[unsafe(no_mangle)]
pub extern "C" fn kirdanzug_run(
    card: &[u32],
    observations: &[u32],
    out: &mut [u32],
    answer: &mut [u64; 3],
)
    ensures { leaves answer.new out.new
        ≡ told ran_words (ran_into card.now observations.now out.old) }
{
    *answer = answers::of_run(runner::run(card, observations, out));
}

// 0, cell entered, its action: a runner opened with the first observation and moved by two more; the answer to the third. It is for
// the tests and the benchmark alone, and the header does not declare it.
#[unsafe(no_mangle)]
pub extern "C" fn kirdanzug_drive(
    card: &[u32],
    first: u32,
    second: u32,
    third: u32,
    answer: &mut [u64; 3],
)
    ensures { answer.new
        ≡ move_words (standing card.now (first ∷ second ∷ third ∷ [])).answer }
{
    let driven = runner::drive(
        card,
        Observation(first),
        Observation(second),
        Observation(third),
    );
    let last = driven.last;
    let said = last.answer;
    *answer = answers::words(said);
}

// 0, offset, length: where the move words of a cell's action stand in the table.
#[unsafe(no_mangle)]
pub extern "C" fn kirdanzug_show(table: &[u32], card: &[u32], cell: u32, answer: &mut [u64; 3])
    ensures { answer.new ≡ show_words (found table.now card.now cell) }
{
    *answer = answers::words(show::find(table, card, Cell(cell)));
}

// 0, 0, 0: the card, whoever drew it, is safe for the table.
#[unsafe(no_mangle)]
pub extern "C" fn kirdanzug_judge_card(table: &[u32], card: &[u32], answer: &mut [u64; 3])
    ensures determined { answer.new ≡ check_words (certified table.now card.now) }
    ensures safe { answer.new ≡ done 0 0 → Safe (game table.now) card.now }
{
    *answer = answers::words(certificates::judge_card(table, card));
}

// 0, words, cells: the card without its idle cells, in front of `out`.
#[unsafe(no_mangle)]
pub extern "C" fn kirdanzug_trim(
    card: &[u32],
    work: &mut [u32],
    out: &mut [u32],
    answer: &mut [u64; 3],
)
    ensures determined { leaves answer.new (rooms work.new out.new)
        ≡ told trim_words (trimmed_into card.now work.old out.old) }
    ensures promised { (r : TrimAnswer) → answer.new ≡ trim_words r
        → Trims card.now r out.new }
{
    *answer = answers::words(trimmer::trim(card, work, out));
}

// 0, bytes, 0: the card as KISS2 text, in front of `text`.
#[unsafe(no_mangle)]
pub extern "C" fn kirdanzug_write_kiss(card: &[u32], text: &mut [u8], answer: &mut [u64; 3])
    ensures determined { leaves answer.new text.new
        ≡ told text_words (written_to card.now text.old) }
    ensures promised { (r : WriteAnswer) → answer.new ≡ text_words r
        → Writes card.now r text.new }
{
    *answer = answers::words(kiss_writer::write(card, text));
}

// 0, words, cells: the card that a KISS2 text says, in front of `out`.
#[unsafe(no_mangle)]
pub extern "C" fn kirdanzug_read_kiss(text: &[u8], out: &mut [u32], answer: &mut [u64; 3])
    ensures determined { leaves answer.new out.new
        ≡ told read_words (read_into text.now out.old) }
    ensures promised { (r : ReadAnswer) → answer.new ≡ read_words r
        → Reads text.now r out.new }
{
    *answer = answers::words(kiss_reader::read(text, out));
}
