//! The jobs program: plays lines against the dispatcher, and so the queues of four jobs beside the controller.
#![tactic(auto)]

use console::{OUTPUT_SIZE, Player, play, tell};
use joblines::play::Jobs;
use joblines::print::put_job_unreadable;
use std::process::ExitCode;
use text::space::Text;

// A session of jobs, which a line that is too long leaves as it is.
#[derive(Drop)]
struct JobsPlayer {
    jobs: Jobs,
}

impl Player for JobsPlayer {
    fn answer(&mut self, line: Option<&[u8]>, out: &mut Text<OUTPUT_SIZE>) {
        match line {
            Some(line) => self.jobs.answer(line, out),
            None => put_job_unreadable(out),
        }
    }
}

fn main(rt: HostRuntime) -> ExitCode {
    let mut player = JobsPlayer { jobs: Jobs::new() };
    let end = play(&mut rt.stdin(), &mut rt.stdout(), &mut player);
    tell(
        rt,
        end,
        b"jobs: the input cannot be read\n",
        b"jobs: the answers cannot be written\n",
    )
}
