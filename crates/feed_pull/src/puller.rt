// Pulls batches of packets from a source.
ghost use Rattle.std.specs.Prelude.{◌≡◌, ◌≢◌, ◌⊎◌, ℕ, ◌+◌, ◌*◌, ◌^◌, ◌<◌, ◌≤◌, ◌↔◌, List, [], ◌++◌, length, take, drop, min, max, OnOk, OnErr, IfOk, IfSome, IfNone, IsTrue, IsFalse, MatchOption, vec_len};
ghost use Rattle.feed_pull.specs.Imports.{Consumes, IsAtEnd, IsTally, Watched, cut, head_of, told_head};
ghost use Rattle.feed_pull.specs.Pulling.{Pulling, IsPulling, Pulls, IsDone, HasGivenAll, HasWatchedAll, HadFewer, IsNearEnd, fault_of, has_failed, given_by};
ghost use Rattle.feed_pull.specs.Steps.{Goes, Gathers, Follows, work, HasGiven, ReadsNothing, Carries, with_room};

use crate::fault::{PullFault, Reading};
use crate::piece::Piece;
use emu_io::Source;
use std::alloc::{AllocError as NoMemory, Global};
use std::marker::Model;
use std::sync::Arc;
use ts_batch::{Batch, BatchRoom};
use ts_packet::{Cutter, Packet, PacketSize, Tally};
use ts_watch::{Head, Watch};

// The most reads of one stream.
const MOST_READS: u64 = 4_294_967_296;

/// A transport stream that is read in pieces and given in batches of packets.
#[derive(Drop)]
pub struct Puller {
    alloc: Global,
    cutter: Cutter,
    room: BatchRoom,
    piece: Piece,
    // How many packets were given.
    given: u64,
    // How many packets had been found when the last bytes were read.
    found_before_last_read: u64,
    // How many reads were made before the puller was.
    reads_before: u64,
    // How many bytes its reads took.
    taken: u64,
    // How many reads were made in all.
    reads: u64,
    // How reading goes.
    reading: Reading,
    // What was counted of the packets that were found.
    watch: Watch,
}

impl Model for Puller {
    ghost use Rattle.ts_watch.specs.Watching.{Watched};
    ghost use Rattle.ts_watch.specs.Head.{told_head, head_of};
    ghost use Rattle.feed_pull.specs.Pulling.{Pulling, IsPulling};

    ghost Value = { Pulling };

    ghost view = { λ p. record {
      cutting = p.cutter;
      waiting = p.room.packets;
      room = p.room.most;
      unread = p.piece;
      given = p.given;
      found_before_last_read = p.found_before_last_read;
      start = p.reads_before;
      taken = p.taken;
      reads = p.reads;
      reading = p.reading;
      watch = p.watch;
    } };

    ghost invariant = { λ p. IsPulling (record {
      cutting = p.cutter;
      waiting = p.room.packets;
      room = p.room.most;
      unread = p.piece;
      given = p.given;
      found_before_last_read = p.found_before_last_read;
      start = p.reads_before;
      taken = p.taken;
      reads = p.reads;
      reading = p.reading;
      watch = p.watch;
    }) };
}

// Counts these packets.
fn watch_all(watch: &mut Watch, packets: &[Packet])
    requires { watch.old.watched + length packets.now < 2 ^ 63 }
    ensures watched { watch.new.watched ≡ watch.old.watched + length packets.now }
    ensures stands { (before : List (List ℕ)) → Watched before watch.old → Watched (before ++ packets.now) watch.new }
{
    'packets: for packet in packets {
        watch.watch(packet);
    }
}

impl Puller {
    /// A puller of the stream that begins with the bytes `ahead`, at most 65,536, and goes on with what its pulls read.
    /// Each of its packets takes up `size`. So many reads were made of the source before, each of which took a byte; at most
    /// 4,294,967,296 are made in all.
    pub fn new(
        alloc: Global,
        ahead: Vec<u8>,
        turns: u64,
        size: PacketSize,
    ) -> Result<Puller, NoMemory>
        requires turns { turns ≤ 4294967296 }
        requires short { vec_len ahead ≤ 65536 }
        ensures stream { IfOk result (λ puller. Pulls ahead.items [] [] puller) }
        ensures size { IfOk result (λ puller. puller.cutting.size ≡ size) }
        ensures numbers { IfOk result (λ puller. (puller.start ≡ turns) × (puller.reads ≡ turns) × (puller.taken ≡ 0)
            × (puller.given ≡ 0)) }
        ensures going { IfOk result (λ puller. puller.reading ≡ Reading.Going) }
        ensures late { IfOk result (λ puller. puller.found_before_last_read ≤ puller.given) }
    {
        let piece = Piece::of(alloc, &ahead)?;
        Ok(Puller {
            alloc,
            cutter: Cutter::new(size),
            room: BatchRoom::new(alloc),
            piece,
            given: 0,
            found_before_last_read: 0,
            reads_before: turns,
            taken: 0,
            reads: turns,
            reading: Reading::Going,
            watch: Watch::new(alloc)?,
        })
    }

    // Reads a piece, where none of the last is left and reading goes on.
    fn read<S: Source>(&mut self, source: &mut S)
        requires empty { self.old.unread ≡ [] }
        requires going { self.old.reading ≡ Reading.Going }
        ensures gathers { Gathers (S.end source.old) (S.end source.new) self.old self.new }
        ensures follows { Follows self.old.reading self.new.reading (S.end source.old) (S.end source.new) }
        ensures less { work self.new < work self.old }
        ensures waiting { self.new.waiting ≡ self.old.waiting }
        ensures room { self.new.room ≡ self.old.room }
        ensures late { self.new.found_before_last_read
            ≤ max self.old.found_before_last_read (self.old.given + length self.old.waiting) }
    {
        if self.reads == MOST_READS {
            self.reading = Reading::TooMany;
            return;
        }
        self.reads += 1;
        match self.piece.read(source) {
            Err(_) => self.reading = Reading::Failed,
            Ok(0) => self.reading = Reading::Ended,
            Ok(count) => {
                self.found_before_last_read = self.given + self.room.len() as u64;
                self.taken += count as u64;
            }
        }
    }

    // Cuts bytes of the piece, up to its end or the packet that fills the room, and counts the packets found.
    fn cut(&mut self)
        requires some { 0 < length self.old.unread }
        requires room { length self.old.waiting < self.old.room }
        ensures goes { Goes self.old [] self.new }
        ensures fits { length self.new.waiting ≤ self.old.room }
        ensures room { self.new.room ≡ self.old.room }
        ensures reading { self.new.reading ≡ self.old.reading }
        ensures reads { self.new.reads ≡ self.old.reads }
        ensures earlier { self.new.found_before_last_read ≡ self.old.found_before_last_read }
        ensures less { length self.new.unread < length self.old.unread }
    {
        let before = self.room.len();
        let count = self.cutter.push(self.piece.rest(), &mut self.room);
        watch_all(&mut self.watch, self.room.behind(before));
        self.piece.pass(count);
    }

    // Whether something is left to cut or may be read.
    fn has_more(&self) -> bool
        ensures more { IsTrue result → self.now.unread ≡ [] → self.now.reading ≡ Reading.Going }
        ensures none { IsFalse result → (self.now.unread ≡ []) × (self.now.reading ≢ Reading.Going) }
    {
        !self.piece.rest().is_empty() || self.reading == Reading::Going
    }

    // Whether the piece is cut to its end.
    fn is_cut(&self) -> bool
        ensures { IsTrue result ↔ (self.now.unread ≡ []) }
    {
        self.piece.rest().is_empty()
    }

    // How many packets wait.
    fn waiting(&self) -> u32
        ensures value { result ≡ length self.now.waiting }
        ensures fits { result ≤ 64 }
    {
        self.room.len()
    }

    // Cuts what is left of the piece, or reads the next.
    fn step<S: Source>(&mut self, source: &mut S)
        requires more { self.old.unread ≡ [] → self.old.reading ≡ Reading.Going }
        requires room { length self.old.waiting < self.old.room }
        ensures gathers { Gathers (S.end source.old) (S.end source.new) self.old self.new }
        ensures follows { Follows self.old.reading self.new.reading (S.end source.old) (S.end source.new) }
        ensures less { work self.new < work self.old }
        ensures late { self.new.found_before_last_read
            ≤ max self.old.found_before_last_read (self.old.given + length self.old.waiting) }
        ensures stopped { self.old.reading ≢ Reading.Going → ReadsNothing self.old self.new }
        ensures fits { length self.new.waiting ≤ self.old.room }
        ensures room { self.new.room ≡ self.old.room }
    {
        if self.is_cut() {
            self.read(source);
        } else {
            self.cut();
        }
    }

    // Takes memory for as many packets as are asked for. Where it is refused, nothing changes.
    fn make_room(&mut self, most: u32) -> Result<(), NoMemory>
        requires { most ≤ 64 }
        ensures made { OnOk result (self.new ≡ with_room self.old most) }
        ensures refused { OnErr result (self.new ≡ self.old) }
    {
        self.room.make_room(most)?;
        Ok(())
    }

    // Reads and cuts until as many packets wait as are asked for, or nothing is left. There is room for just these.
    fn fill<S: Source>(&mut self, source: &mut S, most: u32)
        requires room { self.old.room ≡ most }
        ensures gathers { Gathers (S.end source.old) (S.end source.new) self.old self.new }
        ensures follows { Follows self.old.reading self.new.reading (S.end source.old) (S.end source.new) }
        ensures fewer { length self.new.waiting < most → (self.new.unread ≡ []) × (self.new.reading ≢ Reading.Going) }
        ensures fits { length self.old.waiting ≤ most → length self.new.waiting ≤ most }
        ensures late { HadFewer most self.old → HadFewer most self.new }
        ensures full { most ≤ length self.old.waiting → (S.end source.new ≡ S.end source.old) × (self.new ≡ self.old) }
        ensures stopped { self.old.reading ≢ Reading.Going → ReadsNothing self.old self.new }
    {
        // So that the loop knows what is true of each puller.
        let _ = &self.room;
        'gathering: while self.waiting() < most && self.has_more() {
            self.step(source);
        }
    }

    // Makes room for as many packets as are asked for, and then reads and cuts until as many wait, or nothing is left.
    // Where memory is refused, nothing is read.
    fn gather<S: Source>(&mut self, source: &mut S, most: u32) -> Result<(), NoMemory>
        requires most { most ≤ 64 }
        ensures gathers { Gathers (S.end source.old) (S.end source.new) self.old self.new }
        ensures follows { Follows self.old.reading self.new.reading (S.end source.old) (S.end source.new) }
        ensures fewer { OnOk result (length self.new.waiting < most
            → (self.new.unread ≡ []) × (self.new.reading ≢ Reading.Going)) }
        ensures fits { OnOk result (length self.old.waiting ≤ most → length self.new.waiting ≤ most) }
        ensures late { HadFewer most self.old → HadFewer most self.new }
        ensures full { most ≤ length self.old.waiting → (S.end source.new ≡ S.end source.old)
            × ReadsNothing self.old self.new }
        ensures stopped { self.old.reading ≢ Reading.Going → ReadsNothing self.old self.new }
        ensures sound { IsPulling self.new }
    {
        // So that it is known what is true of each puller.
        let _ = &self.room;
        self.make_room(most)?;
        self.fill(source, most);
        let _ = &self.room;
        Ok(())
    }

    // Gives the packets in front, as many as are asked for or wait.
    fn give(&mut self, most: u32) -> Result<Option<Arc<Batch>>, NoMemory>
        requires { 1 ≤ most }
        ensures gives { HasGiven (given_by result (λ batch. batch.value.packets)) self.old self.new }
        ensures first { IfOk result (λ answer. IfSome answer (λ batch. batch.value.first ≡ self.old.given)) }
        ensures count { IfOk result
            (λ answer. IfSome answer (λ batch. length batch.value.packets ≡ min most (length self.old.waiting))) }
        ensures some { IfOk result (λ answer. IfSome answer (λ batch. 1 ≤ length batch.value.packets)) }
        ensures none { IfOk result (λ answer. IfNone answer (self.old.waiting ≡ [])) }
        ensures late { HadFewer most self.old → IfOk result (λ _. self.new.found_before_last_read ≤ self.new.given) }
        ensures left { length self.old.waiting ≤ most → IfOk result (λ _. self.new.waiting ≡ []) }
        ensures whole { HadFewer most self.old
            → IfOk result (λ answer. IfSome answer (λ batch. length batch.value.packets ≡ most
            → self.new.found_before_last_read < self.new.given)) }
        ensures sound { IsPulling self.new }
    {
        let count = most.min(self.room.len());
        if count == 0 {
            return Ok(None);
        }
        let batch = Batch::of_front(self.alloc, self.given, &mut self.room, count)?;
        self.given += count as u64;
        Ok(Some(batch))
    }

    /// The next packets, as many as are asked for or as are left, 1 to 64. None exactly where reading has stopped and no
    /// packet is left. Where memory is refused, all that was read and found stays for the next pull; where it is refused for
    /// the packets themselves, nothing is read.
    pub fn pull<S: Source>(
        &mut self,
        source: &mut S,
        most: u32,
    ) -> Result<Option<Arc<Batch>>, NoMemory>
        requires some { 1 ≤ most }
        requires few { most ≤ 64 }
        // The stream grows by just the bytes that the source gave, and what was given by the packets of this batch. After
        // want of memory too nothing that was taken is lost.
        ensures stream { Carries (S.end source.old) (S.end source.new) self.old
            (given_by result (λ batch. batch.value.packets)) self.new }
        // What was given so far is the front of the stream's packets.
        ensures front { (ahead taken : List ℕ) (given : List (List ℕ)) → Pulls ahead taken given self.new
            → (later : List (List ℕ)) × ((cut self.new.cutting.size (ahead ++ taken)).packets ≡ given ++ later) }
        // Nothing that was found is left over, unless more packets waited than are asked for.
        ensures left { length self.old.waiting ≤ most → IfOk result (λ _. self.new.waiting ≡ []) }
        // A batch's first number is the number of packets given before.
        ensures first { IfOk result (λ answer. IfSome answer (λ batch. batch.value.first ≡ self.old.given)) }
        ensures given { self.new.given ≡ self.old.given + length (given_by result (λ batch. batch.value.packets)) }
        ensures some { IfOk result (λ answer. IfSome answer (λ batch. 1 ≤ length batch.value.packets)) }
        ensures most { IfOk result (λ answer. IfSome answer (λ batch. length batch.value.packets ≤ most)) }
        // A batch has fewer packets than were asked for only where reading has stopped and nothing is left.
        ensures fewer { IfOk result (λ answer. IfSome answer (λ batch. length batch.value.packets < most → IsDone self.new)) }
        ensures none { IfOk result (λ answer. IfNone answer (IsDone self.new)) }
        // At None all packets of the stream were given.
        ensures all { IfOk result (λ answer. IfNone answer (HasGivenAll self.new)) }
        // .. and the watch was shown just these.
        ensures watched { IfOk result (λ answer. IfNone answer (HasWatchedAll self.new)) }
        // Once reading has stopped it stays so. It ends where the source has nothing left, and fails where its count rose.
        ensures follows { Follows self.old.reading self.new.reading (S.end source.old) (S.end source.new) }
        ensures too_many { self.new.reading ≡ Reading.TooMany → 4294967296 ≤ self.new.start + self.new.taken }
        ensures start { self.new.start ≡ self.old.start }
        // Where enough packets wait, or reading has stopped, nothing is read.
        ensures full { most ≤ length self.old.waiting → (S.end source.new ≡ S.end source.old)
            × ReadsNothing self.old self.new }
        ensures stopped { self.old.reading ≢ Reading.Going → ReadsNothing self.old self.new }
        ensures bytes { self.new.taken ≤ 2 ^ 48 }
        ensures numbers { 188 * self.new.given ≤ 65536 + self.new.taken }
        ensures packets { (ahead taken : List ℕ) (given : List (List ℕ)) → Pulls ahead taken given self.new
            → 188 * length given ≤ length ahead + length taken }
        // Before the last read fewer than `most` packets were in hand, unless a pull that asked for more was refused memory
        // since; so at most 65,535 of the bytes taken stand behind a batch of `most`. An answer begins this anew.
        ensures late { HadFewer most self.old → IfOk result (λ _. self.new.found_before_last_read ≤ self.new.given) }
        ensures asked { HadFewer most self.old → HadFewer most self.new }
        ensures near { HadFewer most self.old
            → IfOk result (λ answer. IfSome answer (λ batch. length batch.value.packets ≡ most → IsNearEnd self.new)) }
    {
        self.gather(source, most)?;
        self.give(most)
    }

    /// The fault that stopped reading, if one did.
    pub fn fault(&self) -> Option<PullFault>
        ensures value { result ≡ fault_of self.now.reading }
        // After the last read that may be made, the bytes taken show that so many were made.
        ensures too_many { self.now.reading ≡ Reading.TooMany → 4294967296 ≤ self.now.start + self.now.taken }
    {
        match self.reading {
            Reading::Going | Reading::Ended => None,
            Reading::Failed => Some(PullFault::ReadFault),
            Reading::TooMany => Some(PullFault::TooLong { turns: MOST_READS }),
        }
    }

    // Whether a read failed.
    fn read_failed(&self) -> bool
        ensures { result ≡ has_failed self.now.reading }
    {
        matches!(self.reading, Reading::Failed)
    }

    /// The tally of the whole stream. A pull has answered None.
    pub fn tally(&self) -> Tally
        requires { IsDone self.now }
        ensures { (ahead taken : List ℕ) (given : List (List ℕ)) → Pulls ahead taken given self.now
            → IsTally (cut self.now.cutting.size (ahead ++ taken)) result }
    {
        self.cutter.finish()
    }

    /// The counts of the whole stream's packets. A pull has answered None.
    pub fn watch(&self) -> &Watch
        requires { IsDone self.now }
        ensures { (ahead taken : List ℕ) (given : List (List ℕ)) → Pulls ahead taken given self.now
            → Watched (cut self.now.cutting.size (ahead ++ taken)).packets result.now }
    {
        &self.watch
    }

    /// What a report says of the whole stream before it tells any call. A pull has answered None.
    pub fn head(&self, alloc: Global) -> Result<Head, NoMemory>
        requires { IsDone self.now }
        ensures head { (ahead taken : List ℕ) (given : List (List ℕ)) → Pulls ahead taken given self.now
            → IfOk result (λ head. told_head head
            ≡ head_of self.now.cutting.size (ahead ++ taken) (has_failed self.now.reading)) }
        ensures fault { IfOk result (λ head. head.read_fault ≡ has_failed self.now.reading) }
    {
        Ok(Head {
            tally: self.tally(),
            rows: self.watch().rows(alloc)?,
            read_fault: self.read_failed(),
        })
    }
}
