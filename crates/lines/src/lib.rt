// The text of what is reported, written onto a lent page (document 01, "Display, tally, capture program"). Text that does not fit whole
// leaves the page as it is.
#![tactic(auto)]

ghost use Rattle.std.specs.Prelude.{◌≡◌, ◌*◌, ◌+◌, ◌<◌, ◌≤◌, ◌↔◌, length, take, IsTrue};
ghost use Rattle.link.specs.Answers.{report_answer};
ghost use Rattle.lines.specs.Lines.{append, digit, hex_octets, decimal, report_line, DecimalStep, ReportMost};
ghost use Rattle.lines.specs.Pages.{page_of, line_of};
ghost use Rattle.lines.specs.Marked.{MarkedLines};

use link::receiver::Report;

// A lent page: its octets, and how many of them, from its start, are filled. Each method says too that the area is still the same one, as the
// borrow checker asks where a `&mut` lies in a struct.
#[derive(Drop)]
pub struct Page<'a> {
    pub area: &'a mut [u8],
    pub filled: usize,
}

impl Page<'_> {
    // Whether so many octets more fit. What is written asks this, fills a part, and counts it, each in its own way: a closure would say no more.
    fn fits(&self, octets: usize) -> bool
        ensures { IsTrue result ↔ (self.now.filled + octets ≤ length self.now.area.now) }
    {
        self.filled.saturating_add(octets) <= self.area.len()
    }

    // What is filled of the page.
    pub fn written(&self) -> &[u8]
        ensures { result.now ≡ take self.now.filled self.now.area.now }
    {
        &self.area[..self.filled.min(self.area.len())]
    }

    // The octets of `words`, as they are.
    pub fn text(&mut self, words: &[u8])
        ensures same_area { self.new.area.ghost_name ≡ self.old.area.ghost_name }
        ensures appended { page_of self.new ≡ append (page_of self.old) words.now }
    {
        if self.fits(words.len()) {
            let end = self.filled + words.len();
            self.area[self.filled..end].copy_from_slice(words);
            self.filled = end;
        }
    }

    // A space and two hexadecimal capitals for each octet of the list.
    pub fn octets(&mut self, list: &[u8])
        ensures same_area { self.new.area.ghost_name ≡ self.old.area.ghost_name }
        ensures appended { page_of self.new ≡ append (page_of self.old) (hex_octets list.now) }
    {
        if self.fits(list.len().saturating_mul(3)) {
            let end = self.filled + 3 * list.len();
            write_octets(list, &mut self.area[self.filled..end]);
            self.filled = end;
        }
    }

    // The decimal digits of n.
    pub fn decimal(&mut self, n: u64)
        ensures same_area { self.new.area.ghost_name ≡ self.old.area.ghost_name }
        ensures appended { page_of self.new ≡ append (page_of self.old) (decimal n) }
    {
        let count = digits(n);
        if self.fits(count) {
            self.number(n, count);
        }
    }

    // The same where they fit; there are `count` of them.
    fn number(&mut self, n: u64, count: usize)
        requires digits { count ≡ length (decimal n) }
        requires room { self.old.filled + count ≤ length self.old.area.now }
        ensures same_area { self.new.area.ghost_name ≡ self.old.area.ghost_name }
        ensures appended { page_of self.new ≡ append (page_of self.old) (decimal n) }
    {
        let end = self.filled + count;
        write_digits(n, &mut self.area[self.filled..end]);
        self.filled = end;
    }

    // A line of a letter, a number, a list in hexadecimal, and the rest, its end included. Written out at each call, which takes fewer
    // instructions (135 million in place of 143 for 800,000 lines).
    #[inline(always)]
    fn line(&mut self, letter: u8, n: u64, list: &[u8], rest: &[u8])
        ensures same_area { self.new.area.ghost_name ≡ self.old.area.ghost_name }
        ensures appended { page_of self.new ≡ append (page_of self.old) (line_of letter n list.now rest.now) }
    {
        let count = digits(n);
        let others = 2 + count + rest.len();
        if self.fits(list.len().saturating_mul(3).saturating_add(others)) {
            self.text(&[letter, b' ']);
            self.number(n, count);
            self.octets(list);
            self.text(rest);
        }
    }

    // The line for a report: the whole of it, or nothing. shown: the octets of its packet.
    pub fn report(&mut self, report: Report, shown: &[u8])
        ensures same_area { self.new.area.ghost_name ≡ self.old.area.ghost_name }
        ensures appended { page_of self.new
            ≡ append (page_of self.old) (report_line (report_answer report) shown.now) }
    {
        match report {
            Report::Quiet => {}
            Report::Packet { length, .. } => self.line(b'P', length as u64, shown, b"\n"),
            Report::Held { count, replaced } => {
                let mark = if replaced { b'1' } else { b'0' };
                self.line(b'H', count as u64, &[], &[b' ', mark, b'\n']);
            }
            Report::Refused(n) => self.line(b'R', n as u64, &[], b"\n"),
        }
    }
}

fn hex_digit(n: u8) -> u8
    requires { n < 16 }
    ensures { result ≡ digit n }
{
    if n < 10 { b'0' + n } else { b'A' + (n - 10) }
}

// The octets of the list in hexadecimal, each with a space before it, over an area of their length. Places and no `chunks_exact_mut`, after
// which a proof no longer knows the area's octets. Not written out at its call, where the compiler no longer sees that list and area are apart,
// and an octet of a capture takes 34.1 instead of 14.8 instructions.
#[inline(never)]
fn write_octets(list: &[u8], area: &mut [u8])
    requires { length area.old ≡ 3 * length list.now }
    ensures { area.new ≡ hex_octets list.now }
{
    for (i, octet) in list.iter().enumerate() {
        area[3 * i] = b' ';
        area[3 * i + 1] = hex_digit(octet / 16);
        area[3 * i + 2] = hex_digit(octet % 16);
    }
}

// How many decimal digits n has.
fn digits(n: u64) -> usize
    ensures count { result ≡ length (decimal n) }
    ensures most { result ≤ 20 }
{
    n.checked_ilog10().unwrap_or(0) as usize + 1
}

// The decimal digits of n, over an area of their length, from the last to the first. A loop and no `write!`, whose contract does not say when
// it fails.
fn write_digits(n: u64, area: &mut [u8])
    requires { length area.old ≡ length (decimal n) }
    ensures { area.new ≡ decimal n }
{
    let mut rest = n;
    for i in (0..area.len()).rev() {
        area[i] = b'0' + (rest % 10) as u8;
        rest /= 10;
    }
}

// What is claimed of this crate: each theorem that docs/DEMANDS.md names.
pub fn claims()
    ensures { DecimalStep × ReportMost × MarkedLines }
{}
