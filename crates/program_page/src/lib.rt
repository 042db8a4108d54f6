// The program's lines: a verdict as text in lent room. Relies on the paper and on lent_room.
#![tactic(auto)]

ghost use Rattle.std.specs.Prelude.{◌+◌, ◌≤◌, length, Ok, Err};
ghost use Rattle.paper.specs.Bytes.{bytes};
ghost use Rattle.paper.specs.Answers.{page};
ghost use Rattle.lent_room.specs.Room.{Puts};
ghost use Rattle.program_page.specs.Pages.{PutsLine, Shows};

use lent_room::{Pass, lay_bytes, lay_decimal};
use paper::{Figures, Refused, Verdict};

// A text behind the first `at` bytes: where it ends.
fn put_text(text: &[u8], at: usize, out: &mut [u8]) -> usize
    requires { at + length text.now ≤ length out.old }
    ensures { Puts at text.now out.old result out.new }
{
    lay_bytes(Pass::Write, text, at, b"", out).unwrap()
}

// A line behind the first `at` bytes: a word, a space, a number of at most 20 digits and byte 10.
fn put_line(word: &[u8], n: usize, at: usize, out: &mut [u8]) -> usize
    requires { at + length word.now + 22 ≤ length out.old }
    ensures { PutsLine at out.old word.now n result out.new }
{
    let a = put_text(word, at, out);
    let b = put_text(b" ", a, out);
    let c = lay_decimal(Pass::Write, n, b, b"", out).unwrap();
    put_text(b"\n", c, out)
}

fn put_accepted(figures: Figures, out: &mut [u8]) -> usize
    requires { 161 ≤ length out.old }
    ensures { Shows (page (Ok figures)) result out.new }
{
    let a = put_text(b"verdict accepted\n", 0, out);
    let b = put_line(b"total", figures.total, a, out);
    let c = put_line(b"skipped", figures.skipped, b, out);
    let d = put_line(b"features", figures.features, c, out);
    let e = put_line(b"judged", figures.judged, d, out);
    put_line(b"unjudged", figures.unjudged, e, out)
}

fn put_refused(refused: Refused, out: &mut [u8]) -> usize
    requires { 161 ≤ length out.old }
    ensures { Shows (page (Err refused)) result out.new }
{
    let a = put_text(b"verdict refused\n", 0, out);
    let b = put_line(b"rule", refused.rule, a, out);
    put_line(b"place", refused.place, b, out)
}

// The program's lines for a verdict, at the front of lent room: how many bytes.
pub fn put_page(verdict: Verdict, out: &mut [u8; 256]) -> usize
    ensures { Shows (page verdict) result out.new }
{
    match verdict {
        Ok(figures) => put_accepted(figures, out),
        Err(refused) => put_refused(refused, out),
    }
}

// The line for a listing that has more bytes than the program reads, at the front of lent room: how many bytes.
pub fn put_too_long(out: &mut [u8; 256]) -> usize
    ensures { Shows (bytes "verdict too long for this program\n") result out.new }
{
    put_text(b"verdict too long for this program\n", 0, out)
}
