//! The table program: prints the core's table of answers, each of them worked out from the papers' lists.
#![tactic(auto)]

use console::{tell, write_text};
use std::process::ExitCode;
use table::print::table_text;

fn main(rt: HostRuntime) -> ExitCode {
    let text = table_text();
    let end = write_text(&mut rt.stdout(), text.as_bytes());
    // it reads nothing
    tell(rt, end, b"", b"table: the table cannot be written\n")
}
