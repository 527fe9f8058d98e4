//! What stands between a source and who reads it: a gate, and the bytes that were read ahead.

ghost use Rattle.std.specs.Prelude.{◌≡◌, ◌<◌, ◌≤◌, ◌++◌, ℕ, [], false, length, IsTrue, IfOk};
ghost use Rattle.pipe_edges.specs.{Reads.{ReadsBytes, ReadIsCounted, ReadHasCause}, Paces.{ReadIsPaced, told_at}, declared.source.ReadEnd.TheVariants.{Empty}};

use crate::gate::Gate;
use crate::room::{Gift, Room};
use pipe_edges::{ByteSource, ReadEnd};
use std::alloc::{AllocError, Global};

// The gate, the bytes read ahead, whether bytes were given behind the last record, and how often nothing was given since
// the share was used up.
#[derive(Drop)]
pub struct Front {
    gate: Gate,
    room: Room,
    part: bool,
    stops: u64,
}

impl Front {
    ghost use Rattle.rate_gate.specs.Gate.{pace_of, moment_of, given_of};
    ghost use Rattle.rate_gate.specs.Front.{front_seen, paced_with, taken_before, HoldsLast, waits_with, IsGiven, IsEnded, IsStopped};

    pub fn new(alloc: Global, gate: Gate) -> Result<Front, AllocError>
        ensures { IfOk result (λ f. front_seen f ≡ record { held = []; pace = pace_of gate; moment = moment_of gate; given = given_of gate; part = false; stops = 0 }) }
    {
        let room = Room::new(alloc)?;
        Ok(Front {
            gate,
            room,
            part: false,
            stops: 0,
        })
    }

    // Tells the moment; one below the last is taken as the last.
    pub fn at(&mut self, now: u64)
        ensures held { (front_seen self.new).held ≡ (front_seen self.old).held }
        ensures same_stops { (front_seen self.new).stops ≡ (front_seen self.old).stops }
        ensures paced { (waits : ℕ) → paced_with waits (front_seen self.new) ≡ told_at now (paced_with waits (front_seen self.old)) }
    {
        let moment = self.gate.moment().max(now);
        self.gate.at(moment);
    }

    // Reads once where nothing is held, and gives up to the next LF.
    pub fn read<B: ByteSource>(&mut self, source: &mut B, piece: &mut [u8]) -> ReadEnd
        requires room { 0 < length piece.old }
        requires last { HoldsLast (B.told source.old) (front_seen self.old).held (B.taken source.old) }
        ensures same_telling { B.told source.new ≡ B.told source.old }
        ensures last { HoldsLast (B.told source.new) (front_seen self.new).held (B.taken source.new) }
        ensures counted { ReadIsCounted (length piece.old) result }
        ensures bytes { IsTrue (B.told source.old)
            → ReadsBytes (taken_before (front_seen self.old).held (B.taken source.old)) ((front_seen self.old).held ++ B.left source.old) piece.new
            (taken_before (front_seen self.new).held (B.taken source.new)) ((front_seen self.new).held ++ B.left source.new) result }
        ensures faults_stay { B.faults source.old ≤ B.faults source.new }
        ensures waits_stay { waits_with (front_seen self.old).stops (B.waits source.old) ≤ waits_with (front_seen self.new).stops (B.waits source.new) }
        ensures cause { ReadHasCause (B.faults source.old) (B.faults source.new)
            (waits_with (front_seen self.old).stops (B.waits source.old)) (waits_with (front_seen self.new).stops (B.waits source.new)) result }
        ensures paced { ReadIsPaced (paced_with (B.waits source.old) (front_seen self.old)) (paced_with (B.waits source.new) (front_seen self.new)) piece.new result }
    {
        if self.room.len() == 0 {
            match self.room.fill(source) {
                ReadEnd::Got(_) => {}
                ReadEnd::End => return self.end(),
                ReadEnd::Failed => return ReadEnd::Failed,
                ReadEnd::Empty => return ReadEnd::Empty,
            }
        }
        self.give(piece)
    }

    // Gives of what is held.
    fn give(&mut self, piece: &mut [u8]) -> ReadEnd
        requires room { 0 < length piece.old }
        requires held { 0 < length (front_seen self.old).held }
        ensures given { IsGiven (length piece.old) (front_seen self.old) (front_seen self.new) piece.new result }
    {
        match self.room.next(piece.len(), self.gate.left() > 0) {
            Gift::Part(n) => {
                self.room.hand(piece, n);
                self.part = true;
                ReadEnd::Got(n)
            }
            Gift::Record(n) => {
                self.room.hand(piece, n);
                self.gate.used();
                self.part = false;
                ReadEnd::Got(n)
            }
            Gift::Stopped => self.stop(),
        }
    }

    // The source ended and nothing is held.
    fn end(&mut self) -> ReadEnd
        ensures ended { IsEnded (front_seen self.old) (front_seen self.new) result }
    {
        if self.part {
            if self.gate.left() == 0 {
                return self.stop();
            }
            self.gate.used();
            self.part = false;
        }
        ReadEnd::End
    }

    // Nothing is given, since the share is used up.
    fn stop(&mut self) -> ReadEnd
        requires { given_of self.old.gate ≡ (pace_of self.old.gate).share }
        ensures stopped { IsStopped (front_seen self.old) (front_seen self.new) }
        ensures empty { result ≡ Empty }
    {
        self.stops = self.stops.saturating_add(1);
        ReadEnd::Empty
    }
}
