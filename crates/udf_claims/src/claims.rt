// The claims on addresses.
ghost use Rattle.std.specs.Prelude.{◌≡◌, ◌++◌, ◌∷◌, [], ℕ, ◌+◌, ◌*◌, ◌<◌, ◌≤◌, ◌^◌, OnOk, OnErr, OnSome, Some, IsTrue, ◌↔◌, MatchOption, not, false};
ghost use Rattle.udf_claims.specs.Best.{best_at};
ghost use Rattle.udf_claims.specs.Walks.{AllPass, IsFirstFailure, AllPassAt, IsFirstFailureAt};
ghost use Rattle.udf_claims.specs.Winner.{wins, wins_block, claimed, number, IsBounded, IsUnclaimedFrom, IsNextClaimed};

use crate::NoMemory;
use crate::best::{champion_of, is_won_by};
use crate::pieces::{PLACES, Piece, piece_at};
use crate::run::{Claimed, Run};
use crate::shares::share;
use crate::steps::Steps;
use std::alloc::Global;
use std::collections::BTreeMap;
use std::marker::Model;
use udf_field::Addr;

/// Wants of addresses. A contract sees them as the list of the runs that were added, in order.
#[derive(Drop)]
pub struct Claims {
    // What contracts see. No code reads it, but the runs could not be told from the maps.
    added: Vec<Run>,

    // By class and address: the owner that wanted it last, and the one that wants it alone.
    latest: Steps,
    sole: Steps,
}

impl Model for Claims {
    ghost use Rattle.std.specs.Prelude.{List};
    ghost use Rattle.udf_claims.specs.declared.run.Run.{Run};
    ghost use Rattle.udf_claims.specs.Telling.{Tells};

    ghost Value = { List Run };

    ghost view = { λ c. c.added.items };

    ghost invariant = { λ c. Tells c.latest c.sole c.added.items };
}

// The blocks of a part: one for each block number.
const BLOCKS: u64 = 0x1_0000_0000;

// The place of an address in the order of addresses.
fn number_of(at: Addr) -> u64
    ensures number { result ≡ number at }
    ensures block { at.block < 4294967296 }
    ensures part { at.part < 65536 }
{
    at.part as u64 * BLOCKS + at.block as u64
}

// The address at a place.
fn address_of(x: u64) -> Addr
    requires { x < 281474976710656 }
    ensures number { number result ≡ x }
    ensures block { result.block < 4294967296 }
    ensures part { result.part < 65536 }
{
    Addr {
        part: (x / BLOCKS) as u16,
        block: (x % BLOCKS) as u32,
    }
}

impl Claims {
    /// No wants.
    pub fn new(alloc: Global) -> Claims
        ensures { result ≡ [] }
    {
        Claims {
            added: Vec::new(alloc),
            latest: BTreeMap::new(alloc),
            sole: BTreeMap::new(alloc),
        }
    }

    /// Adds an owner's wants of a run of blocks, all of one class. Any number from 0 to 2^64 - 1 names an owner, and a
    /// lower class is stronger. The last block that a part may have, 2^32 - 1, is in no run. `NoMemory` where there is
    /// none for the run. However n runs overlap, n calls take n log n.
    pub fn add(&mut self, owner: u64, at: Addr, blocks: u32, class: u8) -> Result<(), NoMemory>
        requires { at.block + blocks < 2 ^ 32 }
        ensures ok { OnOk result (self.new ≡ self.old ++ record { owner = owner; at = at; blocks = blocks; class = class } ∷ []) }
        ensures err { OnErr result (self.new ≡ self.old) }
    {
        let run = Run {
            owner,
            at,
            blocks,
            class,
        };
        self.added.reserve(1)?;
        let start = class as u64 * PLACES + number_of(at);
        let end = start + blocks as u64;
        share(&mut self.latest, &mut self.sole, start, end, owner)?;
        self.added.push_reserved(run);
        Ok(())
    }

    /// The owner that wins an address: it wants it, nobody wants it in a lower class, and no other owner in that class.
    /// A call takes a few look-ups for each class up to the least that wants the address.
    pub fn winner(&self, at: Addr) -> Option<u64>
        ensures { (owner : ℕ) → IsTrue (wins self.now owner at) ↔ (result ≡ Some owner) }
    {
        let x = number_of(at);
        champion_of(self.piece(x, x + 1).best)
    }

    /// The first block of a run that the owner does not win, counted from the start of the run. A call takes a few
    /// look-ups for each piece of the run up to that block, whatever the pieces' lengths.
    pub fn lost(&self, owner: u64, at: Addr, blocks: u32) -> Option<u32>
        requires { at.block + blocks < 2 ^ 32 }
        ensures { MatchOption result (AllPass (wins_block self.now owner at) 0 blocks) (IsFirstFailure (wins_block self.now owner at) 0 blocks) }
    {
        let start = number_of(at);
        match self.first_lost(owner, start, start + blocks as u64) {
            Some(x) => Some((x - start) as u32),
            None => None,
        }
    }

    /// The first claimed blocks from an address on, in the order of addresses: all that follow on one another. A walk
    /// goes on from where they end, which is an address of the same part.
    pub fn claimed_from(&self, at: Addr) -> Option<Claimed>
        ensures { MatchOption result (IsUnclaimedFrom self.now at) (IsNextClaimed self.now at) }
    {
        match self.first_claimed(number_of(at), PLACES) {
            Some(x) => Some(self.claimed_at(x)),
            None => None,
        }
    }

    // The claimed blocks that follow on a claimed place.
    fn claimed_at(&self, x: u64) -> Claimed
        requires high { x < 281474976710656 }
        requires bounded { IsBounded self.now }
        ensures number { number result.at ≡ x }
        ensures fits { result.at.block + result.blocks < 4294967296 }
        ensures claimed { AllPassAt (claimed self.now) x (x + result.blocks) }
        ensures ends { claimed self.now (record { part = result.at.part; block = result.at.block + result.blocks }) ≡ false }
    {
        let first = address_of(x);
        let last = x + (u32::MAX - first.block) as u64;
        let end = self.first_free(x, last).unwrap_or(last);
        Claimed {
            at: first,
            blocks: (end - x) as u32,
        }
    }

    // The piece that begins at a place, at most up to another.
    fn piece(&self, x: u64, to: u64) -> Piece
        requires forward { x < to }
        requires high { to ≤ 281474976710656 }
        ensures after { x < result.end }
        ensures end { result.end ≤ to }
        ensures best { (a : Addr) → a.block < 4294967296 → x ≤ number a → number a < result.end → best_at a self.now ≡ result.best }
        ensures bounded { IsBounded self.now }
    {
        piece_at(&self.latest, &self.sole, x, to)
    }

    // The first place from one on, below another, that the owner does not win.
    fn first_lost(&self, owner: u64, from: u64, to: u64) -> Option<u64>
        requires forward { from ≤ to }
        requires high { to ≤ 281474976710656 }
        ensures { MatchOption result (AllPassAt (wins self.now owner) from to) (IsFirstFailureAt (wins self.now owner) from to) }
    {
        let mut next = from;
        while next < to {
            let piece = self.piece(next, to);
            if !is_won_by(piece.best, owner) {
                return Some(next);
            }
            next = piece.end;
        }
        None
    }

    // The first place from one on, below another, that is claimed.
    fn first_claimed(&self, from: u64, to: u64) -> Option<u64>
        requires forward { from ≤ to }
        requires high { to ≤ 281474976710656 }
        ensures place { MatchOption result (AllPassAt (λ a. not (claimed self.now a)) from to) (IsFirstFailureAt (λ a. not (claimed self.now a)) from to) }
        ensures bounded { OnSome result (IsBounded self.now) }
    {
        let mut next = from;
        while next < to {
            let piece = self.piece(next, to);
            if piece.best.is_some() {
                return Some(next);
            }
            next = piece.end;
        }
        None
    }

    // The first place from one on, below another, that is not claimed.
    fn first_free(&self, from: u64, to: u64) -> Option<u64>
        requires forward { from ≤ to }
        requires high { to ≤ 281474976710656 }
        ensures { MatchOption result (AllPassAt (claimed self.now) from to) (IsFirstFailureAt (claimed self.now) from to) }
    {
        let mut next = from;
        while next < to {
            let piece = self.piece(next, to);
            if piece.best.is_none() {
                return Some(next);
            }
            next = piece.end;
        }
        None
    }
}
