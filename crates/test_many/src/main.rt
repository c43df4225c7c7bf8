// Replays the test vectors of the calls with many texts, those with reasons and those of a plant
// too: a line with the answer for each line of standard input.
//
// The rows are lent full of leftovers. Where a call leaves a cell otherwise than it should, a `?`
// is written.
#![tactic(auto)]

ghost use Rattle.std.specs.Prelude.{◌≤◌, length};

use newmm_many::{cut_many, cut_reasons_many};
use newmm_plants_many::{cut_many_in, cut_reasons_many_in};
use newmm_rules::Mode;
use refusal::Refusal;
use std::io;
use test_lines::{Answers, Joined, Refused, field, first, lent, read_cells, replay};
use test_rows::{expect_leftovers, mode_of, print_left, smear};
use test_words::hold;
use trie_plants::Plant;

const INPUT: usize = 589824;

// Words with a node for each of their characters.
const POOL: usize = 65536;

// More than the longest text that is accepted.
const TEXT: usize = 70000;

const ANSWERS: usize = 1024;

const SCRATCH: usize = 589952;

fn main(rt: HostRuntime) {
    let mut input = [0u8; INPUT];
    let mut pool = [0u32; POOL];
    let mut texts = [0u32; TEXT];
    let mut text_ends = [0u32; ANSWERS];
    let mut answers = [0u32; ANSWERS];
    let mut out = [0u32; TEXT];
    let mut scratch = [0u32; SCRATCH];
    let mut rows = Rows {
        pool: &mut pool,
        texts: &mut texts,
        text_ends: &mut text_ends,
        answers: &mut answers,
        out: &mut out,
        scratch: &mut scratch,
    };
    let _ = replay(&rt, &mut rt.stdin(), &mut input, &mut rows);
}

// What a line asks for: ends or pairs, by the words of a pool or of one of its plants.
#[derive(Clone, Copy)]
enum Form {
    Ends,
    Pairs,
    EndsOf(Plant),
    PairsOf(Plant),
}

impl Form {
    fn named(op: &[u8]) -> Option<Form> {
        match op {
            b"many" | b"many_pool" => Some(Form::Ends),
            b"pairs_pool" => Some(Form::Pairs),
            b"many_a" => Some(Form::EndsOf(Plant::A)),
            b"many_b" => Some(Form::EndsOf(Plant::B)),
            b"pairs_a" => Some(Form::PairsOf(Plant::A)),
            b"pairs_b" => Some(Form::PairsOf(Plant::B)),
            _ => None,
        }
    }

    fn has_pairs(self) -> bool {
        matches!(self, Form::Pairs | Form::PairsOf(_))
    }
}

#[derive(Drop)]
struct Rows<'a> {
    pool: &'a mut [u32],
    texts: &'a mut [u32],
    text_ends: &'a mut [u32],
    answers: &'a mut [u32],
    out: &'a mut [u32],
    scratch: &'a mut [u32],
}

impl Answers for Rows<'_> {
    // many mode, words, texts, text ends, answer cells, out cells, scratch cells
    //     => ok texts answers ends scratch
    // many_pool mode, the pool's cells, and so on, as many; pairs_pool tells ends and reasons
    // many_a, many_b, pairs_a, pairs_b by a plant's words
    fn answer(&mut self, rt: &impl Print, line: &[u8]) -> io::Result<()> {
        let (pool, texts, text_ends, answers, out, scratch) = (
            &mut *self.pool,
            &mut *self.texts,
            &mut *self.text_ends,
            &mut *self.answers,
            &mut *self.out,
            &mut *self.scratch,
        );
        let Some(form) = Form::named(field(line, 0)) else {
            return print!(rt; "?");
        };
        let cells = match field(line, 0) {
            b"many" => hold(rt, field(line, 2), texts, pool),
            _ => read_cells(rt, field(line, 2), pool),
        };
        let Some(mode) = mode_of(field(line, 1)) else {
            return print!(rt; "?");
        };
        let n = read_cells(rt, field(line, 3), texts);
        let k = read_cells(rt, field(line, 4), text_ends);
        let told = lent(rt, field(line, 5), answers.len());
        let room = lent(rt, field(line, 6), out.len());
        let scratch_room = lent(rt, field(line, 7), scratch.len());
        tell_many(
            rt,
            &texts[..n],
            &text_ends[..k],
            first(pool, cells),
            &mut answers[..told],
            &mut out[..room],
            &mut scratch[..scratch_room],
            mode,
            form,
        )
    }
}

fn tell_many(
    rt: &impl Print,
    texts: &[u32],
    text_ends: &[u32],
    pool: &[u32],
    answers: &mut [u32],
    out: &mut [u32],
    scratch: &mut [u32],
    mode: Mode,
    form: Form,
) -> io::Result<()> {
    smear(answers);
    smear(out);
    smear(scratch);
    match answer_to(texts, text_ends, pool, answers, out, scratch, mode, form) {
        Ok(n) => {
            let told = first(answers, n.saturating_mul(4));
            let used = used_cells(told, out.len(), form.has_pairs());
            let ends = first(out, used);
            print!(rt; "ok {n} {} {} ", Joined(told, ','), Joined(ends, ','))?;
            expect_leftovers(rt, out, used);
            expect_leftovers(rt, answers, told.len());
            print_left(rt, scratch);
            Ok(())
        }
        Err(r) => {
            expect_leftovers(rt, answers, 0);
            expect_leftovers(rt, out, 0);
            expect_leftovers(rt, scratch, 0);
            print!(rt; "{}", Refused(r))
        }
    }
}

fn answer_to(
    texts: &[u32],
    text_ends: &[u32],
    pool: &[u32],
    answers: &mut [u32],
    out: &mut [u32],
    scratch: &mut [u32],
    mode: Mode,
    form: Form,
) -> Result<usize, Refusal> {
    match form {
        Form::Ends => cut_many(texts, text_ends, pool, answers, out, scratch, mode),
        Form::Pairs => cut_reasons_many(texts, text_ends, pool, answers, out, scratch, mode),
        Form::EndsOf(plant) => {
            cut_many_in(texts, text_ends, pool, plant, answers, out, scratch, mode)
        }
        Form::PairsOf(plant) => {
            cut_reasons_many_in(texts, text_ends, pool, plant, answers, out, scratch, mode)
        }
    }
}

// Kept: (1) whether there are pairs is a plain yes or no.
// The cells that the answers count: one for an end, two for a pair; all of them where that is less.
fn used_cells(answers: &[u32], room: usize, pairs: bool) -> usize {
    if pairs {
        return 2 * counted(answers, room / 2);
    }
    counted(answers, room)
}

// The counts of the answers, added up; `most` where that is less.
fn counted(answers: &[u32], most: usize) -> usize
    ensures { result ≤ most }
{
    let mut sum = 0usize;
    for answer in answers.chunks(4) {
        if let [_, count, ..] = answer {
            sum = sum.saturating_add(*count as usize);
        }
    }
    sum.min(most)
}
