//! The queues of the four jobs, and whose turn it is. Jobs are numbered 0 to 3.
ghost use Rattle.std.specs.Prelude.{true, false, ◌≡◌, ◌<◌, OnOk, IfErr};
ghost use Rattle.common.specs.declared.refusals.Refusal.TheVariants.{StateDamaged};
ghost use Rattle.queues.specs.Queue.{queue_limit};
ghost use Rattle.queues.specs.Jobs.{jobs, fresh_queues, queue_of, with_queue, are_sound, waits, turn_of, queued};
ghost use Rattle.queues.specs.Jobs.{next_store, served};

use crate::queue::{QUEUE_LIMIT, Queue};
use common::four::Four;
use common::refusals::Refusal;
use operations::store::Store;

/// The number of jobs.
pub const JOBS: u8 = 4;

// Served last before any: "job 0 comes first at the start (last served 3)".
const LAST_JOB: u8 = JOBS - 1;

/// A queue for each job, and the job that was served last.
#[derive(Clone, Copy)]
pub struct Queues {
    pub jobs: Four<Queue>,
    pub last: u8,
}

impl Queues {
    /// Nothing is queued, and job 0 comes first.
    #[tactic(auto, unfolding(crate::specs::Jobs::fresh_queues))]
    pub fn fresh() -> Queues
        ensures { result ≡ fresh_queues }
    {
        let empty = Queue::empty();
        Queues {
            jobs: Four {
                zero: empty,
                one: empty,
                two: empty,
                three: empty,
            },
            last: LAST_JOB,
        }
    }

    /// The queue of a job; any number above 2 is job 3.
    #[tactic(auto, unfolding(crate::specs::Jobs::queue_of))]
    pub fn queue_of(self, job: u8) -> Queue
        ensures { result ≡ queue_of self job }
    {
        self.jobs.get(job)
    }

    // The queues with another one for a job.
    #[tactic(auto, unfolding(crate::specs::Jobs::with_queue))]
    fn with_queue(self, job: u8, queue: Queue) -> Queues
        ensures { result ≡ with_queue self job queue }
    {
        Queues {
            jobs: self.jobs.with(job, queue),
            ..self
        }
    }

    /// Whether each length and the last job served are in range.
    #[tactic(auto, unfolding(crate::specs::Jobs::are_sound))]
    pub fn are_sound(self) -> bool
        ensures { result ≡ are_sound self }
    {
        self.jobs.all(|queue| queue.length <= QUEUE_LIMIT) & (self.last < JOBS)
    }

    /// Refused where one of them is not.
    pub fn check_sound(&self) -> Result<(), Refusal>
        ensures sound { OnOk result (are_sound self.now ≡ true) }
        ensures damaged { IfErr result (λ refusal. (refusal ≡ StateDamaged) × (are_sound self.now ≡ false)) }
    {
        if self.are_sound() {
            Ok(())
        } else {
            Err(Refusal::StateDamaged)
        }
    }

    // Whether a job has a store queued.
    #[tactic(auto, unfolding(crate::specs::Jobs::waits))]
    fn waits(self, job: u8) -> bool
        ensures { result ≡ waits self job }
    {
        0 < self.queue_of(job).length
    }

    /// The first job with a store queued, from the one after the last served; none where nothing is queued.
    #[tactic(auto, unfolding(crate::specs::Jobs::turn_of, common::specs::Pick::pick))]
    pub fn turn_of(self) -> Option<u8>
        requires { self.last < jobs }
        ensures { result ≡ turn_of self }
    {
        let first = (self.last + 1) % JOBS;
        let second = (self.last + 2) % JOBS;
        let third = (self.last + 3) % JOBS;
        if self.waits(first) {
            return Some(first);
        }
        if self.waits(second) {
            return Some(second);
        }
        if self.waits(third) {
            return Some(third);
        }
        if self.waits(self.last) {
            return Some(self.last);
        }
        None
    }

    /// The queues with a store more for a job.
    #[tactic(auto, unfolding(crate::specs::Jobs::queued))]
    pub fn queued(self, job: u8, store: Store) -> Queues
        requires { (queue_of self job).length < queue_limit }
        ensures { result ≡ queued self job store }
    {
        self.with_queue(job, self.queue_of(job).with_store(store))
    }

    /// The store that a job hands over next.
    #[tactic(auto, unfolding(crate::specs::Jobs::next_store))]
    pub fn next_store(self, job: u8) -> Store
        ensures { result ≡ next_store self job }
    {
        self.queue_of(job).first_store()
    }

    /// The queues once it is handed over.
    #[tactic(auto, unfolding(crate::specs::Jobs::waits, crate::specs::Jobs::served))]
    pub fn served(self, job: u8) -> Queues
        requires { waits self job ≡ true }
        ensures { result ≡ served self job }
    {
        Queues {
            last: job,
            ..self.with_queue(job, self.queue_of(job).without_first())
        }
    }
}
