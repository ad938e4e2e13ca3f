//! The session program: plays lines against the controller.
#![tactic(auto)]

use console::{OUTPUT_SIZE, Player, play, tell};
use lines::play::Session;
use lines::print::put_unreadable;
use std::process::ExitCode;
use text::space::Text;

// A session, which a line that is too long leaves as it is.
#[derive(Drop)]
struct SessionPlayer {
    session: Session,
}

impl Player for SessionPlayer {
    fn answer(&mut self, line: Option<&[u8]>, out: &mut Text<OUTPUT_SIZE>) {
        match line {
            Some(line) => self.session.answer(line, out),
            None => put_unreadable(out),
        }
    }
}

fn main(rt: HostRuntime) -> ExitCode {
    let mut player = SessionPlayer {
        session: Session::new(),
    };
    let end = play(&mut rt.stdin(), &mut rt.stdout(), &mut player);
    tell(
        rt,
        end,
        b"session: the input cannot be read\n",
        b"session: the answers cannot be written\n",
    )
}
