// A seat at its line: requests come in, and replies go out.
ghost use Rattle.std.specs.Prelude.{◌≡◌, ◌<◌, ◌≤◌, ◌+◌, ◌-◌, true, false, length, OnOk, OnErr, IfSome};
ghost use Rattle.seats.specs.Line.{Takes, RunsOut, Writes, BreaksOff};
ghost use Rattle.seats.specs.Seated.{IsFit, GoesOn, MayLeave};
ghost use Rattle.seats.specs.Told.{reply_bytes, data_read, call_at};
ghost use Rattle.seats.specs.Turns.{HasTurned};

use crate::answers::Answered;
use crate::seat::Seat;
use crate::serve_frames::numbers::REQUEST_LEN;
use crate::serve_frames::{Ask, data_of};
use adapter::Adapter;
use emu_io::{Clock, Failed, Sink, Source};
use machine::steps::Steps;
use std::alloc::Global;
use std::sync::Wait;
use std::sync::ledger::Ledger;

// Fills the buffer. False where the source ends before, or a read fails.
fn fill<S: Source>(source: &mut S, into: &mut [u8]) -> bool
    ensures same { length into.new ≡ length into.old }
    ensures whole { result ≡ true → Takes (S.end source.old) (S.end source.new) into.new }
    ensures short { result ≡ false → RunsOut (length into.old) (S.end source.old) (S.end source.new) }
{
    let mut done = 0;
    'reading: while done < into.len() {
        match source.read(&mut into[done..]) {
            Ok(0) => return false,
            Ok(count) => done += count,
            Err(_) => return false,
        }
    }
    true
}

// Writes all the bytes, unless a write fails.
fn write_whole<K: Sink>(sink: &mut K, bytes: &[u8]) -> Result<(), Failed>
    ensures whole { OnOk result (Writes (K.end sink.old) (K.end sink.new) bytes.now) }
    ensures cut { OnErr result (BreaksOff (K.end sink.old) (K.end sink.new) bytes.now) }
{
    let mut done = 0;
    'writing: while done < bytes.len() {
        let count = sink.write(&bytes[done..])?;
        done += count;
    }
    Ok(())
}

impl Seat {
    // The bytes that were read by the call that is told.
    fn data_at(&self, at: Option<usize>) -> &[u8]
        requires { IfSome at (λ i. i < length self.now.made.items) }
        ensures value { result.now ≡ data_read (call_at self.now.made.items at) }
        ensures few { length result.now ≤ 65536 }
    {
        match at {
            Some(at) => data_of(&self.made[at].reply),
            None => &[],
        }
    }

    // Writes a reply.
    fn tell<K: Sink>(&self, sink: &mut K, answered: &Answered) -> Result<(), Failed>
        requires at { IfSome answered.now.at (λ i. i < length self.now.made.items) }
        ensures whole { OnOk result
            (Writes (K.end sink.old) (K.end sink.new)
            (reply_bytes answered.now.tell (data_read (call_at self.now.made.items answered.now.at)))) }
        ensures cut { OnErr result (BreaksOff (K.end sink.old) (K.end sink.new)
            (reply_bytes answered.now.tell (data_read (call_at self.now.made.items answered.now.at)))) }
    {
        let data = self.data_at(answered.at);
        let head = answered.tell.head(data.len() as u32);
        write_whole(sink, head.as_slice())?;
        write_whole(sink, data)
    }

    // Answers the next request. False where less than one is left of the line, or a read or a write of it fails.
    pub(crate) fn turn<T: Source + Sink, C: Clock, L: Ledger, R: Wait>(
        &mut self,
        rt: &R,
        alloc: Global,
        adapter: &Adapter,
        line: &mut T,
        clock: &C,
        steps: &mut Steps<L>,
    ) -> bool
        requires fit { IsFit adapter.now self.old }
        requires room { MayLeave self.old }
        ensures fit { IsFit adapter.now self.new }
        ensures room { MayLeave self.new }
        ensures goes { GoesOn self.old self.new }
        ensures turned { HasTurned T.Source.end T.Sink.end (C.may_give clock.now) (C.may_give_behind clock.now)
            result line.old line.new self.old self.new }
    {
        let mut bytes = [0u8; REQUEST_LEN];
        if !fill(line, &mut bytes) {
            return false;
        }
        let ask = Ask::of(&bytes);
        let now = clock.now_behind(line);
        let answered = self.answer(rt, alloc, adapter, ask, now, steps);
        self.tell(line, &answered).is_ok()
    }
}
