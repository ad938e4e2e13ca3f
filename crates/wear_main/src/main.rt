//! The wear program: reads a wear log from standard input to its end, and prints its moving view. The log's first line
//! is a width, each other a record.
#![tactic(auto)]

mod view;

use crate::view::put_log;
use console::{Failure, OUTPUT_SIZE, Player, play, tell};
use std::process::ExitCode;
use text::space::Text;
use wearlines::log::Log;

// It answers no line: the view is printed behind the last.
#[derive(Drop)]
struct Wear {
    log: Log,
}

impl Player for Wear {
    fn answer(&mut self, line: Option<&[u8]>, _: &mut Text<OUTPUT_SIZE>) {
        match line {
            None => self.log.take_bad_line(),
            Some(line) => self.log.take_line(line),
        }
    }
}

// The log is read, and its view printed.
fn print_view(rt: HostRuntime) -> Result<(), Failure> {
    let mut wear = Wear { log: Log::new() };
    play(&mut rt.stdin(), &mut rt.stdout(), &mut wear)?;
    put_log(&wear.log, &mut rt.stdout())
}

fn main(rt: HostRuntime) -> ExitCode {
    let end = print_view(rt);
    tell(
        rt,
        end,
        b"wear: the input cannot be read\n",
        b"wear: the view cannot be written\n",
    )
}
