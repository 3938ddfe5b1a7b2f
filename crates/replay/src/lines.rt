// Lines of output, each built in place from its end and written by one call.
// By hand and not through `Display`: a text of the library's takes longer, and nothing is promised of one that has no room.
ghost use Rattle.std.specs.Prelude.{◌≡◌, ◌+◌, ◌<◌, ◌≤◌, ◌++◌, drop, length, OnOk};
ghost use Rattle.std.specs.Fmt.{decimal};
ghost use Rattle.std.specs.Io.KnownBytes.{Appends};
ghost use Rattle.replay.specs.Limits.{line_bytes, max_digits, max_word};
ghost use Rattle.replay.specs.Lines.{ended, field};

use std::io;
use std::io::Write;

// Room for a word of at most 8 bytes, three numbers with a space before each, and the line end.
const LINE: usize = 80;

// Puts a number's decimal digits, at most 20, before what stands from `end` on, and answers where they begin.
fn put_number(line: &mut [u8; LINE], end: usize, x: u64) -> usize
    requires { (max_digits ≤ end) × (end ≤ line_bytes) }
    ensures before { result < end }
    ensures past { end ≤ result + max_digits }
    ensures text { drop result line.new ≡ decimal x ++ drop end line.old }
{
    let mut rest = x;
    let mut at = end - 1;
    while 10 <= rest {
        line[at] = b'0' + (rest % 10) as u8;
        rest /= 10;
        at -= 1;
    }
    line[at] = b'0' + rest as u8;
    at
}

// Puts a space and a number there.
fn put_field(line: &mut [u8; LINE], end: usize, x: u64) -> usize
    requires { (1 + max_digits ≤ end) × (end ≤ line_bytes) }
    ensures before { result < end }
    ensures past { end ≤ result + 1 + max_digits }
    ensures text { drop result line.new ≡ field x ++ drop end line.old }
{
    let at = put_number(line, end, x) - 1;
    line[at] = b' ';
    at
}

// Puts a word there.
fn put_word(line: &mut [u8; LINE], end: usize, text: &str) -> usize
    requires { (length text.now ≤ end) × (end ≤ line_bytes) }
    ensures before { result ≤ end }
    ensures text { drop result line.new ≡ text.now ++ drop end line.old }
{
    let at = end - text.len();
    line[at..end].copy_from_slice(text.as_bytes());
    at
}

// Writes a line that is a word.
pub(crate) fn word<W: Write>(out: &mut W, text: &str) -> io::Result<()>
    requires { length text.now ≤ max_word }
    ensures { OnOk result (Appends (W.contents out.old) (W.contents out.new) (ended text.now)) }
{
    let mut line = [b'\n'; LINE];
    let at = put_word(&mut line, LINE - 1, text);
    out.write_all(&line[at..])
}

// Writes a line of a word and a number.
pub(crate) fn one<W: Write>(out: &mut W, text: &str, x: u64) -> io::Result<()>
    requires { length text.now ≤ max_word }
    ensures { OnOk result (Appends (W.contents out.old) (W.contents out.new) (ended (text.now ++ field x))) }
{
    let mut line = [b'\n'; LINE];
    let first = put_field(&mut line, LINE - 1, x);
    let at = put_word(&mut line, first, text);
    out.write_all(&line[at..])
}

// Writes a line of two numbers.
pub(crate) fn two<W: Write>(out: &mut W, x: u64, y: u64) -> io::Result<()>
    ensures { OnOk result (Appends (W.contents out.old) (W.contents out.new) (ended (decimal x ++ field y))) }
{
    let mut line = [b'\n'; LINE];
    let second = put_field(&mut line, LINE - 1, y);
    let at = put_number(&mut line, second, x);
    out.write_all(&line[at..])
}

// Writes a line of a word and three numbers.
pub(crate) fn three<W: Write>(out: &mut W, text: &str, x: u64, y: u64, z: u64) -> io::Result<()>
    requires { length text.now ≤ max_word }
    ensures { OnOk result (Appends (W.contents out.old) (W.contents out.new)
        (ended (((text.now ++ field x) ++ field y) ++ field z))) }
{
    let mut line = [b'\n'; LINE];
    let third = put_field(&mut line, LINE - 1, z);
    let second = put_field(&mut line, third, y);
    let first = put_field(&mut line, second, x);
    let at = put_word(&mut line, first, text);
    out.write_all(&line[at..])
}
