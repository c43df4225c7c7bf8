// Release figures in sixteen cells.
//   of_cut, of_refused   the figures of one text
//   is_full              whether a figure of two batches would pass its limit
//   join_cells           two batches in one
#![tactic(auto)]

ghost use Rattle.std.specs.Prelude.{◌≡◌, false, ◌≤◌, length, ltb};
ghost use Rattle.figures_rules.specs.Figures.{figure_count, join_cell, joined, limit, full};
ghost use Rattle.figures_rules.specs.Outcomes.{of_cut, of_refused, Reasons};
ghost use Rattle.figures_cells.specs.inner.Reasons.{reasons_in};

use figures_rules::{FIGURES, MOST_EDGES, TEXTS, TOKENS};
use newmm_reasons_answers::REASONS;

pub type Figures = [u64; 16];

// The most texts, and the most of any other figure.
const MAX_TEXTS: u64 = 4294967295;

const MAX_FIGURE: u64 = 18446744073709551615;

// The figures of a text that was cut, by its characters, the cells of its tokens and its edges.
pub fn of_cut(characters: usize, cells: &[u32], edges: usize) -> Figures
    requires { Reasons (reasons_in cells.now) }
    ensures { result ≡ of_cut characters (reasons_in cells.now) edges }
{
    let n = characters as u64;
    let tokens = cells.len() as u64;
    let e = edges as u64;
    let mut one = [1, n, tokens, 0, 0, 0, 0, 0, e, e, 0, 0, 0, 0, 0, 0];
    for c in cells {
        let at = TOKENS + (*c % REASONS) as usize;
        one[at] += 1;
    }
    one
}

// The figures of a text that was refused with a number.
pub fn of_refused(number: usize) -> Figures
    requires { (1 ≤ number) × (number ≤ 6) }
    ensures { result ≡ of_refused number }
{
    let mut one = [1, 0, 0, 0, 0, 0, 0, 0, 0, 0, 0, 0, 0, 0, 0, 0];
    one[MOST_EDGES + number] = 1;
    one
}

fn limit_of(i: usize) -> u64
    ensures { result ≡ limit i }
{
    if i == TEXTS {
        return MAX_TEXTS;
    }
    MAX_FIGURE
}

fn is_cell_full(i: usize, x: u64, y: u64) -> bool
    ensures { result ≡ ltb (limit i) (join_cell i x y) }
{
    if i == MOST_EDGES {
        return false;
    }
    let most = limit_of(i);
    if most < x {
        return true;
    }
    most - x < y
}

// Whether a figure of both batches would pass its limit.
pub fn is_full(figures: &[u64], more: &[u64]) -> bool
    requires { (length figures.now ≡ figure_count) × (length more.now ≡ figure_count) }
    ensures { result ≡ full figures.now more.now }
{
    for i in 0..FIGURES {
        if is_cell_full(i, figures[i], more[i]) {
            return true;
        }
    }
    false
}

fn join_cell(i: usize, x: u64, y: u64) -> u64
    requires { join_cell i x y ≤ limit i }
    ensures { result ≡ join_cell i x y }
{
    if i == MOST_EDGES {
        if x < y {
            return y;
        }
        return x;
    }
    x + y
}

// Joins a batch to the figures.
pub fn join_cells(figures: &mut [u64], more: &[u64])
    requires { (length figures.old ≡ figure_count) × (length more.now ≡ figure_count)
        × (full figures.old more.now ≡ false) }
    ensures { figures.new ≡ joined figures.old more.now }
{
    for i in 0..FIGURES {
        figures[i] = join_cell(i, figures[i], more[i]);
    }
}
