//! The bytes of a state: each part as an array, put where it stands.
ghost use Rattle.std.specs.Prelude.{◌≡◌, ◌+◌, ◌≤◌, length};
ghost use Rattle.layout.specs.Writing.{placed, head_bytes, collected_bytes, held_bytes, phase_bytes};
ghost use Rattle.layout.specs.Writing.{queue_bytes, state_bytes, controller_bytes};

use crate::places::{
    ACK_OFFERED, COLLECTING, DATA_AWAITED, END_OFFERED, GO_OFFERED, HEAD_LENGTH, LAST_PLACE,
    LAYOUT, LAYOUT_PLACE, PHASE_LENGTH, PHASE_PLACE, QUEUE_LENGTH, QUEUES_PLACE, RESULT_AWAITED,
    SENDING, STATE_LENGTH,
};
use controller::controller::Controller;
use dispatcher::dispatcher::Dispatcher;
use link::state::{Body, Collected, Phase};
use operations::store::Store;
use queues::queue::Queue;

// The layout's number and the body.
#[tactic(auto, unfolding(crate::specs::Writing::head_bytes))]
fn head_bytes(b: Body) -> [u8; HEAD_LENGTH]
    ensures { result ≡ head_bytes b }
{
    let zero = b.drives.zero;
    let one = b.drives.one;
    let two = b.drives.two;
    let three = b.drives.three;
    let o = b.outcome;
    let t = b.tertiary;
    let q = b.quintary;
    let [_, _, count_high, count_low] = o.result.count.to_be_bytes();
    [
        LAYOUT,
        zero.report,
        zero.reviewed,
        zero.track,
        zero.density,
        zero.gap,
        zero.guard as u8,
        one.report,
        one.reviewed,
        one.track,
        one.density,
        one.gap,
        one.guard as u8,
        two.report,
        two.reviewed,
        two.track,
        two.density,
        two.gap,
        two.guard as u8,
        three.report,
        three.reviewed,
        three.track,
        three.density,
        three.gap,
        three.guard as u8,
        b.selected,
        b.changed as u8,
        b.enable as u8,
        o.retry as u8,
        o.mark as u8,
        o.result.code,
        o.result.motion,
        count_high,
        count_low,
        o.parity as u8,
        o.overflow as u8,
        o.underflow as u8,
        o.wdl as u8,
        o.rdl as u8,
        o.supplied as u8,
        o.counted as u8,
        t.b0,
        t.b1,
        t.b2,
        t.b3,
        q.b0,
        q.b1,
        q.b2,
        q.b3,
    ]
}

// A phase that holds a string from the host.
fn collected_bytes(number: u8, s: Collected) -> [u8; PHASE_LENGTH]
    ensures { result ≡ collected_bytes number s }
{
    [
        number, s.length, s.c0, s.c1, s.c2, s.c3, s.c4, s.c5, s.c6, s.c7,
    ]
}

// A phase that holds a store.
fn held_bytes(number: u8, store: Store) -> [u8; PHASE_LENGTH]
    ensures { result ≡ held_bytes number store }
{
    [
        number,
        store.address,
        store.first,
        store.second,
        store.third,
        store.fourth,
        0,
        0,
        0,
        0,
    ]
}

#[tactic(auto, unfolding(crate::specs::Writing::phase_bytes, crate::specs::Writing::kind_number))]
fn phase_bytes(phase: Phase) -> [u8; PHASE_LENGTH]
    ensures { result ≡ phase_bytes phase }
{
    match phase {
        Phase::Collecting(s) => collected_bytes(COLLECTING, s),
        Phase::AckOffered(s) => collected_bytes(ACK_OFFERED, s),
        Phase::Sending(send) => {
            let f = send.bytes;
            [
                SENDING,
                send.kind as u8,
                f.b0,
                f.b1,
                f.b2,
                f.b3,
                f.b4,
                f.b5,
                send.noes,
                0,
            ]
        }
        Phase::GoOffered(store) => held_bytes(GO_OFFERED, store),
        Phase::DataAwaited(store) => held_bytes(DATA_AWAITED, store),
        Phase::ResultAwaited(operation, store) => [
            RESULT_AWAITED,
            operation.number(),
            store.address,
            store.first,
            store.second,
            store.third,
            store.fourth,
            0,
            0,
            0,
        ],
        Phase::EndOffered(interrupt) => [END_OFFERED, interrupt as u8, 0, 0, 0, 0, 0, 0, 0, 0],
    }
}

#[tactic(auto, unfolding(crate::specs::Writing::queue_bytes))]
fn queue_bytes(queue: Queue) -> [u8; QUEUE_LENGTH]
    ensures { result ≡ queue_bytes queue }
{
    let s = queue.stores;
    let a = s[0];
    let b = s[1];
    let c = s[2];
    let d = s[3];
    let e = s[4];
    let f = s[5];
    let g = s[6];
    let h = s[7];
    [
        queue.length,
        a.address,
        a.first,
        a.second,
        a.third,
        a.fourth,
        b.address,
        b.first,
        b.second,
        b.third,
        b.fourth,
        c.address,
        c.first,
        c.second,
        c.third,
        c.fourth,
        d.address,
        d.first,
        d.second,
        d.third,
        d.fourth,
        e.address,
        e.first,
        e.second,
        e.third,
        e.fourth,
        f.address,
        f.first,
        f.second,
        f.third,
        f.fourth,
        g.address,
        g.first,
        g.second,
        g.third,
        g.fourth,
        h.address,
        h.first,
        h.second,
        h.third,
        h.fourth,
    ]
}

// Puts bytes at a place.
#[tactic(auto, unfolding(crate::specs::Writing::placed))]
fn put_placed(bytes: &[u8], place: usize, space: &mut [u8])
    requires { place + length bytes.now ≤ length space.old }
    ensures { space.new ≡ placed bytes.now place space.old }
{
    space[place..place + bytes.len()].copy_from_slice(bytes);
}

/// Puts the controller's part of a state, and leaves the queues as they stand.
pub fn put_controller_bytes(c: &Controller, space: &mut [u8; STATE_LENGTH])
    ensures { space.new ≡ controller_bytes c.now space.old }
{
    put_placed(&head_bytes(c.body), LAYOUT_PLACE, space);
    put_placed(&phase_bytes(c.phase), PHASE_PLACE, space);
}

/// Puts a whole state.
pub fn put_state_bytes(d: &Dispatcher, space: &mut [u8; STATE_LENGTH])
    ensures { space.new ≡ state_bytes d.now }
{
    let jobs = d.queues.jobs;
    put_controller_bytes(&d.controller, space);
    put_placed(&queue_bytes(jobs.zero), QUEUES_PLACE, space);
    put_placed(&queue_bytes(jobs.one), QUEUES_PLACE + QUEUE_LENGTH, space);
    put_placed(
        &queue_bytes(jobs.two),
        QUEUES_PLACE + 2 * QUEUE_LENGTH,
        space,
    );
    put_placed(
        &queue_bytes(jobs.three),
        QUEUES_PLACE + 3 * QUEUE_LENGTH,
        space,
    );
    put_placed(&[d.queues.last], LAST_PLACE, space);
}
