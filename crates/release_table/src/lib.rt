// A release's list: write_figures writes the figures, one name and number a line.
#![tactic(auto)]

ghost use Rattle.std.specs.Prelude.{◌≡◌, length};
ghost use Rattle.sheet_bytes.specs.Lines.{kept, laid};
ghost use Rattle.sheet_texts.specs.Texts.{written, amount};
ghost use Rattle.release_table.specs.Table.{figure_line, size_lines, found_lines, skipped_lines, edge_lines};
ghost use Rattle.release_table.specs.Table.{text_refusal_lines, row_refusal_lines, table};

use figures_cells::Figures;
use sheet_bytes::keep;
use sheet_texts::keep_number;

// Adds a figure's line, as `keep` adds bytes.
fn keep_figure(out: &mut [u8], used: usize, name: &[u8], figure: u64) -> usize
    ensures value { result ≡ length (kept out.old used (figure_line name.now figure)) }
    ensures out_after { out.new ≡
        laid (kept out.old used (figure_line name.now figure)) out.old }
{
    let a = keep(out, used, name);
    let b = keep(out, a, b" ");
    let c = keep_number(out, b, figure as usize);
    keep(out, c, b"\n")
}

fn keep_sizes(out: &mut [u8], used: usize, figures: &Figures) -> usize
    ensures value { result ≡ length (kept out.old used (size_lines figures.now)) }
    ensures out_after { out.new ≡
        laid (kept out.old used (size_lines figures.now)) out.old }
{
    let a = keep_figure(out, used, b"texts", figures[0]);
    let b = keep_figure(out, a, b"characters", figures[1]);
    keep_figure(out, b, b"tokens", figures[2])
}

fn keep_found(out: &mut [u8], used: usize, figures: &Figures) -> usize
    ensures value { result ≡ length (kept out.old used (found_lines figures.now)) }
    ensures out_after { out.new ≡
        laid (kept out.old used (found_lines figures.now)) out.old }
{
    let a = keep_figure(out, used, b"words", figures[3]);
    keep_figure(out, a, b"runs", figures[4])
}

fn keep_skipped(out: &mut [u8], used: usize, figures: &Figures) -> usize
    ensures value { result ≡ length (kept out.old used (skipped_lines figures.now)) }
    ensures out_after { out.new ≡
        laid (kept out.old used (skipped_lines figures.now)) out.old }
{
    let a = keep_figure(out, used, b"skipped-to-word", figures[5]);
    let b = keep_figure(out, a, b"skipped-to-run", figures[6]);
    keep_figure(out, b, b"skipped-to-end", figures[7])
}

fn keep_edges(out: &mut [u8], used: usize, figures: &Figures) -> usize
    ensures value { result ≡ length (kept out.old used (edge_lines figures.now)) }
    ensures out_after { out.new ≡
        laid (kept out.old used (edge_lines figures.now)) out.old }
{
    let a = keep_figure(out, used, b"edges", figures[8]);
    keep_figure(out, a, b"most-edges", figures[9])
}

fn keep_text_refusals(out: &mut [u8], used: usize, figures: &Figures) -> usize
    ensures value { result ≡ length (kept out.old used (text_refusal_lines figures.now)) }
    ensures out_after { out.new ≡
        laid (kept out.old used (text_refusal_lines figures.now)) out.old }
{
    let a = keep_figure(out, used, b"refused-1", figures[10]);
    let b = keep_figure(out, a, b"refused-2", figures[11]);
    keep_figure(out, b, b"refused-3", figures[12])
}

fn keep_row_refusals(out: &mut [u8], used: usize, figures: &Figures) -> usize
    ensures value { result ≡ length (kept out.old used (row_refusal_lines figures.now)) }
    ensures out_after { out.new ≡
        laid (kept out.old used (row_refusal_lines figures.now)) out.old }
{
    let a = keep_figure(out, used, b"refused-4", figures[13]);
    let b = keep_figure(out, a, b"refused-5", figures[14]);
    keep_figure(out, b, b"refused-6", figures[15])
}

// Writes the figures to the front of `out`, as far as there is room. Answers how many bytes that
// is.
pub fn write_figures(figures: &Figures, out: &mut [u8]) -> usize
    ensures value { result ≡ amount (table figures.now) out.old }
    ensures out_after { out.new ≡ written (table figures.now) out.old }
{
    let a = keep_sizes(out, 0, figures);
    let b = keep_found(out, a, figures);
    let c = keep_skipped(out, b, figures);
    let d = keep_edges(out, c, figures);
    let e = keep_text_refusals(out, d, figures);
    keep_row_refusals(out, e, figures)
}
