//! What a desk knows beside its grid.
ghost use Rattle.std.specs.Prelude.{◌≡◌, ◌+◌, ◌<◌, ◌≤◌, ◌^◌, [], ◌∷◌, ◌++◌, All, IfOk, nat_lt, length};
ghost use Rattle.monitor_plan.specs.Watch.{watch_at, IsInside};
ghost use Rattle.cell_placer.specs.Ledger.{IsLedger, IsMember, watch_of};
ghost use Rattle.cell_placer.specs.Fate.{first_meeting};
ghost use Rattle.cell_placer.specs.Ready.{IsSpot};

use crate::member::{Accepted, Member};
use crate::owners::{least_owner, own};
use monitor_plan::{Outline, Watch};
use std::alloc::{AllocError, Global};
use std::marker::Model;

/// Where the handsets look in a slot, and which grants were accepted.
#[derive(Debug, Drop)]
pub(crate) struct Ledger {
    blocks: u16,
    members: Vec<Member>,
    room: u32,
    calls: u32,
    accepted: Vec<Accepted>,
    /// For each symbol and block the call that has this REG, if any.
    owners: Vec<Option<u32>>,
}

impl Model for Ledger {
    ghost use Rattle.cell_placer.specs.Ledger.{LedgerValue};

    ghost Value = { LedgerValue };

    ghost use Rattle.cell_placer.specs.View.{ledger_of, IsKept};

    ghost view = { ledger_of };

    ghost invariant = { IsKept };
}

impl Ledger {
    /// The ledger of these handsets, with room for so many grants.
    pub fn new(
        alloc: Global,
        blocks: u16,
        members: Vec<Member>,
        room: u32,
    ) -> Result<Ledger, AllocError>
        requires members { All (IsMember blocks) members.items }
        ensures { IfOk result (λ ledger. ledger
            ≡ record { blocks = blocks; members = members.items; room = room; calls = 0; accepted = [] }) }
    {
        let size = 14 * usize::from(blocks);
        let accepted = Vec::with_capacity(alloc, room as usize)?;
        let owners = vec![in alloc; None; size]?;
        Ok(Ledger {
            blocks,
            members,
            room,
            calls: 0,
            accepted,
            owners,
        })
    }

    /// The handsets.
    pub fn members(&self) -> &[Member]
        ensures value { result.now ≡ self.now.members }
        ensures ledger { IsLedger self.now }
    {
        self.members.as_slice()
    }

    /// Whether there is room for one more grant.
    pub fn has_room(&self) -> bool
        ensures { result ≡ nat_lt (length self.now.accepted) self.now.room }
    {
        self.accepted.len() < self.room as usize
    }

    /// For how many grants there is room.
    pub fn room(&self) -> u32
        ensures { result ≡ self.now.room }
    {
        self.room
    }

    /// How many grants were judged.
    pub fn calls(&self) -> u32
        ensures { result ≡ self.now.calls }
    {
        self.calls
    }

    /// The call of the first accepted grant that has a REG of the watch at a place of a plan.
    pub fn first_meeting(&self, plan: &Outline, at: usize) -> Option<u32>
        requires at { at < length plan.now }
        requires inside { All (IsInside self.now.blocks) plan.now }
        ensures { result ≡ first_meeting self.now.members self.now.accepted (watch_at plan.now at) }
    {
        least_owner(
            self.owners.as_slice(),
            self.blocks,
            plan.symbol(at),
            plan.regs(at).as_slice(),
        )
    }

    /// The watch of an entry.
    pub fn watch_of(&self, entry: Accepted) -> Watch
        requires { IsSpot self.now entry }
        ensures { result ≡ watch_of self.now.members entry }
    {
        self.members[entry.handset].plan.watch(entry.watch)
    }

    /// Counts a call that was refused.
    pub fn refuse(&mut self)
        requires { self.old.calls + 1 < 2 ^ 32 }
        ensures { self.new ≡ record self.old { calls = self.old.calls + 1 } }
    {
        self.calls += 1;
    }

    /// Counts a call and keeps the entry of the grant that it accepted, whose watch this is.
    pub fn accept(&mut self, entry: Accepted, watch: &Watch)
        requires spot { IsSpot self.old entry }
        requires watch { watch.now ≡ watch_of self.old.members entry }
        requires calls { self.old.calls + 1 < 2 ^ 32 }
        ensures { self.new ≡ record self.old { calls = self.old.calls + 1; accepted = self.old.accepted ++ entry ∷ [] } }
    {
        own(
            &mut self.owners,
            self.blocks,
            watch.symbol,
            watch.regs.as_slice(),
            entry.call,
        );
        match self.accepted.push(entry) {
            Ok(()) => {}
            Err(_) => unreachable!(),
        }
        self.calls += 1;
    }
}
