//! What a shelf counts of its fetches.
ghost use Rattle.std.specs.Prelude.{◌≡◌, ◌≤◌, ◌++◌, ◌∷◌, ◌⊎◌, [], OnOk, OnErr};
ghost use Rattle.std.specs.Result.{IsErrOf};
ghost use Rattle.outside.specs.Causes.{Rose, next_count};
ghost use Rattle.outside.specs.Counted.{IsLater, counts_after};
ghost use Rattle.outside.specs.Missed.{FailedName, LongName};
ghost use Rattle.outside.specs.Noted.{missed_of};

use crate::FetchFault;
use std::alloc::{AllocError, Global};
use std::marker::Model;

/// A fetch that gave nothing, with the name that was asked for.
#[derive(Drop)]
pub enum Miss {
    /// It failed.
    Failed(String),
    /// It found an object too long.
    TooLong(String),
}

/// How many fetches failed, how many found an object too long, and the names of both in order.
#[derive(Drop)]
pub struct Misses {
    faults: u64,
    longs: u64,
    notes: Option<Vec<Miss>>,
}

impl Model for Misses {
    ghost use Rattle.std.specs.Option.{option_map};
    ghost use Rattle.outside.specs.Counts.{Counts};
    ghost use Rattle.outside.specs.Noted.{all_missed};

    ghost Value = { Counts };

    ghost view = { λ s. record {
      faults = s.faults;
      longs = s.longs;
      missed = all_missed (option_map (λ v. v.items) s.notes);
    } };
}

impl Misses {
    /// Nothing was missed yet.
    pub fn new() -> Misses
        ensures { result ≡ record { faults = 0; longs = 0; missed = [] } }
    {
        Misses {
            faults: 0,
            longs: 0,
            notes: None,
        }
    }

    /// Notes a miss. Where there is no memory for it nothing changes.
    fn note(&mut self, alloc: Global, miss: Miss) -> Result<(), AllocError>
        ensures noted { OnOk result (self.new ≡ record self.old { missed = self.old.missed ++ missed_of miss ∷ [] }) }
        ensures unnoted { OnErr result (self.new ≡ self.old) }
    {
        match &mut self.notes {
            Some(notes) => notes.push(miss)?,
            None => {
                let mut notes = Vec::new(alloc);
                notes.push(miss)?;
                self.notes = Some(notes);
            }
        }
        Ok(())
    }

    /// Notes and counts a fetch that failed. Where there is no memory for its name nothing changes.
    pub fn fail(&mut self, alloc: Global, name: &str) -> Result<(), AllocError>
        ensures counted { OnOk result (self.new.faults ≡ next_count self.old.faults) }
        ensures rose { OnOk result (Rose self.old.faults self.new.faults) }
        ensures later { self.old.faults ≤ self.new.faults }
        ensures longs { OnOk result (self.new.longs ≡ self.old.longs) }
        ensures noted { OnOk result (self.new.missed ≡ self.old.missed ++ FailedName name.now ∷ []) }
        ensures unnoted { OnErr result (self.new ≡ self.old) }
    {
        self.note(alloc, Miss::Failed(String::from_str(alloc, name)?))?;
        self.faults = self.faults.saturating_add(1);
        Ok(())
    }

    /// Notes and counts a fetch that found an object too long. Where there is no memory for its name nothing changes.
    pub fn overrun(&mut self, alloc: Global, name: &str) -> Result<(), AllocError>
        ensures counted { OnOk result (self.new.longs ≡ next_count self.old.longs) }
        ensures rose { OnOk result (Rose self.old.longs self.new.longs) }
        ensures later { self.old.longs ≤ self.new.longs }
        ensures faults { OnOk result (self.new.faults ≡ self.old.faults) }
        ensures noted { OnOk result (self.new.missed ≡ self.old.missed ++ LongName name.now ∷ []) }
        ensures unnoted { OnErr result (self.new ≡ self.old) }
    {
        self.note(alloc, Miss::TooLong(String::from_str(alloc, name)?))?;
        self.longs = self.longs.saturating_add(1);
        Ok(())
    }

    /// Counts and notes a fetch of this name by its answer, and hands the answer on. Where there is no memory for the
    /// name of a miss nothing changes, and the answer is `NoMemory`.
    pub fn settle(
        &mut self,
        alloc: Global,
        name: &str,
        answer: Result<(), FetchFault>,
    ) -> Result<(), FetchFault>
        ensures counted { self.new ≡ counts_after self.old name.now result }
        ensures later { IsLater self.old self.new }
        ensures kept { OnOk answer (result ≡ answer) }
        ensures refused { OnErr answer ((result ≡ answer) ⊎ IsErrOf result FetchFault.NoMemory) }
    {
        match answer {
            Err(FetchFault::Failed) => self.fail(alloc, name)?,
            Err(FetchFault::TooLong) => self.overrun(alloc, name)?,
            _ => {}
        }
        answer
    }
}
