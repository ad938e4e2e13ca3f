//! The contest program: answers questions of driver against tape, one a line.
#![tactic(auto)]

use console::{OUTPUT_SIZE, Player, play, tell};
use contestlines::print::{put_contest_line, put_contest_unreadable};
use std::process::ExitCode;
use text::space::Text;

// It holds nothing between two lines.
#[derive(Clone, Copy)]
struct Contest;

impl Player for Contest {
    fn answer(&mut self, line: Option<&[u8]>, out: &mut Text<OUTPUT_SIZE>) {
        match line {
            None => put_contest_unreadable(out),
            Some(line) => put_contest_line(line, out),
        }
    }
}

fn main(rt: HostRuntime) -> ExitCode {
    let end = play(&mut rt.stdin(), &mut rt.stdout(), &mut Contest);
    tell(
        rt,
        end,
        b"contest: the input cannot be read\n",
        b"contest: the answers cannot be written\n",
    )
}
