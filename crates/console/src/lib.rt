//! Lines from any reader, answers to any writer: the one loop of all programs that answer line by line. The input is
//! read in pieces. A line that lies whole in one is handed out in place; the start of one that goes on in the next is
//! kept. The answers wait until all lines of a piece are answered, so that each line is answered before more input is
//! waited for, and then they are written at once.
#![tactic(auto)]

ghost use Rattle.std.specs.Prelude.{◌≡◌, ◌≤◌, ◌<◌, ◌+◌, ◌⊎◌, length, slice_get, Some, IfSome, OnOk, IfOk, IfErr};
ghost use Rattle.text.specs.Characters.{line_feed};
ghost use Rattle.console.specs.Failures.{IsOfReading, IsOfWriting, IsOfTurn};
ghost use Rattle.console.specs.Sizes.{input_size, output_size, answer_limit, line_limit};

use memchr::memchr;
use std::io;
use std::io::{ErrorKind, Read, Write};
use std::process::ExitCode;
use text::space::Text;

// A piece of the input. The longest readable line without needless zeros has 33,946 bytes, so this has room to spare.
const INPUT_SIZE: usize = 65536;

// A line that is longer is too long to be read.
const LINE_LIMIT: usize = INPUT_SIZE - 1;

/// The answers that wait, which are written in large pieces where much input waits.
pub const OUTPUT_SIZE: usize = 65536;

// No answer is longer than this.
const ANSWER_LIMIT: usize = 40960;

// With no more text than this waiting, an answer still fits.
const ROOM: usize = OUTPUT_SIZE - ANSWER_LIMIT;

// Most lines end within this many bytes.
const NEAR: usize = 32;

// The status of a program that a closed pipe ends, as a shell tells it.
const CLOSED_STATUS: u8 = 141;

/// A read or a write failed, or nobody reads any more what is written.
#[derive(Clone, Copy)]
pub enum Failure {
    Unread,
    Unwritten,
    Closed,
}

/// What a program does with a line.
pub trait Player {
    /// A line is answered, without its #0A, behind the text that waits: `None` is one that is too long to be read.
    fn answer(&mut self, line: Option<&[u8]>, out: &mut Text<OUTPUT_SIZE>)
        requires short { IfSome line (λ s. length s.now ≤ line_limit) }
        requires room { length out.old + answer_limit ≤ output_size };
}

// Which failure an error of a write is.
fn unwritten(error: io::Error) -> Failure
    ensures { IsOfWriting result }
{
    match error.kind() {
        ErrorKind::BrokenPipe => Failure::Closed,
        _ => Failure::Unwritten,
    }
}

/// Writes a text. Where that fails, some of it may be written.
pub fn write_text<W: Write>(output: &mut W, text: &[u8]) -> Result<(), Failure>
    ensures { IfErr result (λ e. IsOfWriting e) }
{
    output.write_all(text).map_err(unwritten)
}

/// Writes the text that waits, so that none does. Where that fails, some of it may be written, and all of it waits.
pub fn write_waiting<W: Write>(output: &mut W, out: &mut Text<OUTPUT_SIZE>) -> Result<(), Failure>
    ensures written { OnOk result (length out.new ≡ 0) }
    ensures failed { IfErr result (λ e. IsOfWriting e) }
    ensures stays { IfErr result (λ _. out.new ≡ out.old) }
{
    write_text(output, out.as_bytes())?;
    out.clear();
    Ok(())
}

/// Room for one more answer: the text that waits is written where there is too little, and stays as it was otherwise.
/// Where the write fails, it stays too.
pub fn make_room<W: Write>(output: &mut W, out: &mut Text<OUTPUT_SIZE>) -> Result<(), Failure>
    ensures ready { OnOk result (length out.new + answer_limit ≤ output_size) }
    ensures whole { OnOk result ((out.new ≡ out.old) ⊎ (length out.new ≡ 0)) }
    ensures fits { length out.old + answer_limit ≤ output_size → out.new ≡ out.old }
    ensures failed { IfErr result (λ e. IsOfWriting e) }
    ensures stays { IfErr result (λ _. out.new ≡ out.old) }
{
    if out.len() > ROOM {
        return write_waiting(output, out);
    }
    Ok(())
}

// As much of a part of a line is kept as there is room for, and of a line that is too long no more than shows it.
fn keep(part: &[u8], line: &mut Text<INPUT_SIZE>) {
    let room = INPUT_SIZE - line.len();
    line.put_all(&part[..part.len().min(room)]);
}

// The line that was kept is answered, and nothing is kept any more. A write that fails leaves it and the text.
fn answer_kept<W: Write, P: Player>(
    line: &mut Text<INPUT_SIZE>,
    output: &mut W,
    out: &mut Text<OUTPUT_SIZE>,
    player: &mut P,
) -> Result<(), Failure>
    ensures kept { OnOk result (length line.new ≡ 0) }
    ensures failed { IfErr result (λ e. IsOfWriting e) }
    ensures stays { IfErr result (λ _. (line.new ≡ line.old) × (out.new ≡ out.old)) }
{
    make_room(output, out)?;
    if line.len() > LINE_LIMIT {
        player.answer(None, out);
    } else {
        player.answer(Some(line.as_bytes()), out);
    }
    line.clear();
    Ok(())
}

// The place of the first #0A, near first, where most lines end.
fn line_end(rest: &[u8]) -> Option<usize>
    ensures within { IfSome result (λ end. end < length rest.now) }
    ensures ends { IfSome result (λ end. slice_get rest.now end ≡ Some line_feed) }
{
    for (at, &byte) in rest[..NEAR.min(rest.len())].iter().enumerate() {
        if byte == b'\n' {
            return Some(at);
        }
    }
    memchr(b'\n', rest)
}

// The lines that end in a piece of the input are answered, and the start of one that does not is kept.
fn answer_lines<W: Write, P: Player>(
    piece: &[u8],
    line: &mut Text<INPUT_SIZE>,
    output: &mut W,
    out: &mut Text<OUTPUT_SIZE>,
    player: &mut P,
) -> Result<(), Failure>
    requires { length piece.now ≤ input_size }
    ensures failed { IfErr result (λ e. IsOfWriting e) }
{
    let mut rest = piece;
    while let Some(end) = line_end(rest) {
        if line.len() == 0 {
            make_room(output, out)?;
            player.answer(Some(&rest[..end]), out);
        } else {
            keep(&rest[..end], line);
            answer_kept(line, output, out, player)?;
        }
        rest = &rest[end + 1..];
    }
    keep(rest, line);
    Ok(())
}

/// Writes the text that waits, and reads a piece: how many bytes of it, and 0 where the input has ended. A write that
/// fails leaves the input, the piece and the text as they were. Where the read fails, the text is written, and none
/// waits.
pub fn read_on<R: Read, W: Write>(
    input: &mut R,
    piece: &mut [u8],
    output: &mut W,
    out: &mut Text<OUTPUT_SIZE>,
) -> Result<usize, Failure>
    ensures read { IfOk result (λ count. count ≤ length piece.old) }
    ensures written { OnOk result (length out.new ≡ 0) }
    ensures failed { IfErr result (λ e. IsOfTurn e input.old input.new) }
    ensures piece { IfErr result (λ e. IsOfTurn e piece.old piece.new) }
    ensures text { IfErr result (λ e. (IsOfReading e × (length out.new ≡ 0)) ⊎ (IsOfWriting e × (out.new ≡ out.old))) }
{
    write_waiting(output, out)?;
    input.read(piece).map_err(|_| Failure::Unread)
}

/// Plays each line of the input, to its end.
pub fn play<R: Read, W: Write, P: Player>(
    input: &mut R,
    output: &mut W,
    player: &mut P,
) -> Result<(), Failure>
    ensures failed { IfErr result (λ e. IsOfReading e ⊎ IsOfWriting e) }
{
    let mut piece = [0; INPUT_SIZE];
    let mut line = Text::new();
    let mut out = Text::new();
    // Nothing says that an input ends, so the loop has a number of turns that no run uses up.
    for _ in 0..u64::MAX {
        let count = read_on(input, &mut piece, output, &mut out)?;
        if count == 0 {
            break;
        }
        answer_lines(&piece[..count], &mut line, output, &mut out, player)?;
    }
    if line.len() > 0 {
        answer_kept(&mut line, output, &mut out, player)?;
    }
    write_waiting(output, &mut out)
}

/// What failed is told on standard error, in the program's own words, and by the status. Where nobody reads any more,
/// no word is said, as of a program that the closed pipe ends.
pub fn tell(
    rt: HostRuntime,
    end: Result<(), Failure>,
    unread: &[u8],
    unwritten: &[u8],
) -> ExitCode {
    let text = match end {
        Ok(()) => return ExitCode::SUCCESS,
        Err(Failure::Closed) => return ExitCode::from(CLOSED_STATUS),
        Err(Failure::Unread) => unread,
        Err(Failure::Unwritten) => unwritten,
    };
    let _ = rt.stderr().write_all(text);
    ExitCode::FAILURE
}

#[cfg(test)]
mod tests {
    use super::*;
    use std::io::repeat;
    use std::test::Fail;

    // A line's length, or 'long'.
    #[derive(Drop)]
    struct Lengths;

    impl Player for Lengths {
        fn answer(&mut self, line: Option<&[u8]>, out: &mut Text<OUTPUT_SIZE>) {
            match line {
                Some(line) => out.put_decimal(5, line.len() as u32),
                None => out.put_all(b"long"),
            }
            out.put(b'\n');
        }
    }

    // An input that comes three bytes at a time.
    #[derive(Drop)]
    struct Drip<'a> {
        rest: &'a [u8],
    }

    impl Read for Drip<'_> {
        fn read(&mut self, buf: &mut [u8]) -> io::Result<usize> {
            let count = self.rest.len().min(buf.len()).min(3);
            let (now, later) = self.rest.split_at(count);
            buf[..count].copy_from_slice(now);
            self.rest = later;
            Ok(count)
        }
    }

    // A pipe that nobody reads.
    #[derive(Drop)]
    struct Shut;

    impl Write for Shut {
        fn write(&mut self, _: &[u8]) -> io::Result<usize> {
            Err(io::Error::from(ErrorKind::BrokenPipe))
        }

        fn flush(&mut self) -> io::Result<()> {
            Ok(())
        }
    }

    #[test]
    fn plays_each_line(rt: HostRuntime) -> Result<(), Fail> {
        for (count, answers) in [
            (0, &b"0\n2\n"[..]),
            (65535, &b"65535\n2\n"[..]),
            (65536, &b"long\n2\n"[..]),
            (200000, &b"long\n2\n"[..]),
        ] {
            let mut input = repeat(b'x').take(count).chain(&b"\nab"[..]);
            let mut output = Vec::new(rt.alloc());
            let end = play(&mut input, &mut output, &mut Lengths);
            assert!(rt; end.is_ok(), "at {count}");
            assert!(rt; output.as_slice() == answers, "at {count}");
        }
        Ok(())
    }

    #[test]
    fn keeps_a_line_over_pieces(rt: HostRuntime) -> Result<(), Fail> {
        let mut input = Drip {
            rest: b"1234567890\n\nab",
        };
        let mut output = Vec::new(rt.alloc());
        let end = play(&mut input, &mut output, &mut Lengths);
        assert!(rt; end.is_ok());
        assert!(rt; output.as_slice() == b"10\n0\n2\n".as_slice());
        Ok(())
    }

    // With 24,576 bytes that wait an answer of 40,960 still fits, so that nobody has to read; with one more they are
    // written, or wait where nobody reads.
    #[test]
    fn makes_room_where_there_is_too_little(rt: HostRuntime) {
        let mut out = Text::new();
        out.put_all(&[b'x'; 24576]);
        assert!(rt; make_room(&mut Shut, &mut out).is_ok());
        assert!(rt; out.len() == 24576);
        out.put(b'x');
        let end = make_room(&mut Shut, &mut out);
        assert!(rt; matches!(end, Err(Failure::Closed)));
        assert!(rt; out.len() == 24577);
        let mut output = Vec::new(rt.alloc());
        assert!(rt; make_room(&mut output, &mut out).is_ok());
        assert!(rt; output.len() == 24577);
        assert!(rt; out.len() == 0);
    }

    #[test]
    fn tells_a_closed_pipe(rt: HostRuntime) {
        let end = play(&mut &b"ab\n"[..], &mut Shut, &mut Lengths);
        assert!(rt; matches!(end, Err(Failure::Closed)));
    }
}
