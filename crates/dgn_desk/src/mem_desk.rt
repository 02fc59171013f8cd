ghost use Rattle.std.specs.Prelude.{◌≡◌, ◌≤◌, ◌||◌, length, ◌∷◌, ◌++◌, [], Some, None, take, IfOk, IsTrue, OnOk, OnErr, true};
ghost use Rattle.std.proofs.Common.{rules};
ghost use Rattle.std.specs.Option.{option_copied};
ghost use Rattle.std.specs.FinMap as maps;
ghost use Rattle.dgn_desk.specs.declared.act.Act.TheVariants as act;
ghost use Rattle.dgn_desk.specs.Content.{all_said, opened, consumed, filed, written, spoken, with_file, HasFile, HasTarget};
ghost use Rattle.dgn_desk.specs.Desk.{Counts, TakesFirst, TakesSome, StaysWilling, DoesNotFail};
ghost use Rattle.dgn_desk.specs.NumberedDesk.{is_listed, none_ahead, is_missing, has_no_target, Answers};

use crate::act::Act;
use crate::failing::failed;
use crate::sure_desk::SureDesk;
use crate::{Desk, Stop};
use std::alloc::{AllocError, Global};
use std::marker::Model;

/// A desk of memory whose calls can be made to fail.
///
/// The calls of the five functions are numbered from 0 together, in the order in which they are made. A
/// call whose number is on the list fails; so do `begin_read` of a name that isn't there, and `write`
/// where no file was begun. A call that wants memory has no number. `read`, `write` and `say` move at
/// most as many bytes at once as it is made with. It is willing exactly where no number on the list is
/// at or above that of the next call.
#[derive(Drop)]
pub struct MemDesk {
    // What it holds, of which the name that writes go to counts once a file was begun.
    under: SureDesk,
    begun: bool,
    fails: Vec<u64>,
    acts: Vec<Act>,
    read_faults: u64,
    write_faults: u64,
}

impl Model for MemDesk {
    ghost use Rattle.std.specs.Prelude.{None, IsSome, if◌then◌else◌};
    ghost use Rattle.dgn_desk.specs.NumberedDesk.{NumberedDesk, coded_desk};

    ghost Value = { NumberedDesk };

    ghost coded = { coded_desk };

    ghost view = { λ d. record {
      content = record d.under.content { target = if d.begun then d.under.content.target else None };
      piece = d.under.piece;
      fails = d.fails.items;
      acts = d.acts.items;
      read_faults = d.read_faults;
      write_faults = d.write_faults;
    } };

    ghost invariant = { λ d. IsSome d.under.content.target };
}

impl MemDesk {
    /// A desk that holds no files, has said nothing, and of whose calls none is to fail. It moves at most
    /// `piece` bytes at once.
    pub fn new(alloc: Global, piece: usize) -> MemDesk
        requires { 1 ≤ piece }
        ensures { result ≡ record {
          content = record { files = maps.empty; left = []; target = None; settled = []; since = [] };
          piece = piece;
          fails = [];
          acts = [];
          read_faults = 0;
          write_faults = 0;
        } }
    {
        MemDesk {
            under: SureDesk::new(alloc, piece),
            begun: false,
            fails: Vec::new(alloc),
            acts: Vec::new(alloc),
            read_faults: 0,
            write_faults: 0,
        }
    }

    /// Sets a file. A reading of it that was begun goes on over its former bytes. An error says that there was no memory.
    pub fn add(&mut self, name: &str, bytes: Vec<u8>) -> Result<(), AllocError>
        ensures ok { OnOk result (self.new ≡ record self.old {
          content = record self.old.content {
            files = with_file name.now bytes.items self.old.content.files;
          };
        }) }
        ensures err { OnErr result (self.new ≡ self.old) }
    {
        self.under.add(name, bytes)
    }

    /// Puts a number on the list of the calls that are to fail. An error says that there was no memory.
    pub fn fail_at(&mut self, call: u64) -> Result<(), AllocError>
        ensures ok { OnOk result (self.new ≡ record self.old { fails = self.old.fails ++ call ∷ [] }) }
        ensures err { OnErr result (self.new ≡ self.old) }
    {
        self.fails.push(call)?;
        Ok(())
    }

    /// The bytes of a file. None exactly where it isn't there.
    pub fn file(&self, name: &str) -> Option<&[u8]>
        ensures { option_copied result ≡ maps.get self.now.content.files name.now }
    {
        self.under.file(name)
    }

    /// All that was said.
    pub fn said(&self) -> &[u8]
        ensures { result.now ≡ all_said self.now.content }
    {
        self.under.said()
    }

    /// The functions that were called so far, in order: one for each number.
    pub fn acts(&self) -> &[Act]
        ensures { result.now ≡ self.now.acts }
    {
        self.acts.as_slice()
    }

    // Whether the next call's number is on the list.
    fn is_listed(&self) -> bool
        ensures { result ≡ is_listed self.now }
    {
        let number = self.acts.len() as u64;
        self.fails.contains(&number)
    }
}

impl Desk for MemDesk {
    ghost read_faults = { λ d. d.read_faults };

    ghost write_faults = { λ d. d.write_faults };

    ghost content = { λ d. Some d.content };

    ghost willing = { none_ahead };

    ghost strict = { true };

    ghost tells = { Prim.search rules };

    #[tactic(auto, using(crate::proofs::Numbered::stays_ahead, crate::proofs::Numbered::unlisted))]
    fn begin_read(&mut self, name: &str) -> Result<(), Stop>
        ensures cause { Counts self.old.read_faults self.new.read_faults result }
        ensures stays_willing { StaysWilling (none_ahead self.old) (none_ahead self.new) }
        ensures never_fails { IsTrue (none_ahead self.old) → HasFile name.now (Some self.old.content) → DoesNotFail result }
        ensures found { OnOk result (IsTrue true → HasFile name.now (Some self.old.content)) }
        ensures exact { Answers act.BeginRead (is_listed self.old || is_missing name.now self.old.content)
            (λ _. opened name.now) result self.old self.new }
    {
        self.acts.reserve(1)?;
        if self.is_listed() || self.under.file(name).is_none() {
            self.acts.push_reserved(Act::BeginRead);
            return failed(&mut self.read_faults);
        }
        self.under.begin_read(name)?;
        self.acts.push_reserved(Act::BeginRead);
        Ok(())
    }

    #[tactic(auto, using(crate::proofs::Numbered::stays_ahead, crate::proofs::Numbered::unlisted))]
    fn read(&mut self, buf: &mut [u8]) -> Result<usize, Stop>
        ensures cause { Counts self.old.read_faults self.new.read_faults result }
        ensures within { IfOk result (λ count. count ≤ length buf.new) }
        ensures bytes { IfOk result (λ count. TakesFirst self.old.content.left buf.new count) }
        ensures stays_willing { StaysWilling (none_ahead self.old) (none_ahead self.new) }
        ensures never_fails { IsTrue (none_ahead self.old) → DoesNotFail result }
        ensures bounded { IfOk result (λ count. count ≤ self.old.piece) }
        ensures exact { Answers act.Read (is_listed self.old) consumed result self.old self.new }
    {
        self.acts.reserve(1)?;
        if self.is_listed() {
            self.acts.push_reserved(Act::Read);
            return failed(&mut self.read_faults);
        }
        let count = self.under.read(buf)?;
        self.acts.push_reserved(Act::Read);
        Ok(count)
    }

    #[tactic(auto, using(crate::proofs::Numbered::stays_ahead, crate::proofs::Numbered::unlisted))]
    fn begin_write(&mut self, name: &str) -> Result<(), Stop>
        ensures cause { Counts self.old.write_faults self.new.write_faults result }
        ensures stays_willing { StaysWilling (none_ahead self.old) (none_ahead self.new) }
        ensures never_fails { IsTrue (none_ahead self.old) → DoesNotFail result }
        ensures exact { Answers act.BeginWrite (is_listed self.old) (λ _. filed name.now []) result self.old self.new }
    {
        self.acts.reserve(1)?;
        if self.is_listed() {
            self.acts.push_reserved(Act::BeginWrite);
            return failed(&mut self.write_faults);
        }
        self.under.begin_write(name)?;
        self.begun = true;
        self.acts.push_reserved(Act::BeginWrite);
        Ok(())
    }

    #[tactic(auto, using(crate::proofs::Numbered::stays_ahead, crate::proofs::Numbered::unlisted))]
    fn write(&mut self, bytes: &[u8]) -> Result<usize, Stop>
        ensures cause { Counts self.old.write_faults self.new.write_faults result }
        ensures taken { IfOk result (TakesSome bytes.now) }
        ensures stays_willing { StaysWilling (none_ahead self.old) (none_ahead self.new) }
        ensures never_fails { IsTrue (none_ahead self.old) → HasTarget (Some self.old.content) → DoesNotFail result }
        ensures bounded { IfOk result (λ count. count ≤ self.old.piece) }
        ensures exact { Answers act.Write (is_listed self.old || has_no_target self.old.content)
            (λ count. written (take count bytes.now)) result self.old self.new }
    {
        self.acts.reserve(1)?;
        if self.is_listed() || !self.begun {
            self.acts.push_reserved(Act::Write);
            return failed(&mut self.write_faults);
        }
        let count = self.under.write(bytes)?;
        self.acts.push_reserved(Act::Write);
        Ok(count)
    }

    #[tactic(auto, using(crate::proofs::Numbered::stays_ahead, crate::proofs::Numbered::unlisted))]
    fn say(&mut self, bytes: &[u8]) -> Result<usize, Stop>
        ensures cause { Counts self.old.write_faults self.new.write_faults result }
        ensures taken { IfOk result (TakesSome bytes.now) }
        ensures stays_willing { StaysWilling (none_ahead self.old) (none_ahead self.new) }
        ensures never_fails { IsTrue (none_ahead self.old) → DoesNotFail result }
        ensures bounded { IfOk result (λ count. count ≤ self.old.piece) }
        ensures exact { Answers act.Say (is_listed self.old) (λ count. spoken (take count bytes.now)) result self.old self.new }
    {
        self.acts.reserve(1)?;
        if self.is_listed() {
            self.acts.push_reserved(Act::Say);
            return failed(&mut self.write_faults);
        }
        let count = self.under.say(bytes)?;
        self.acts.push_reserved(Act::Say);
        Ok(count)
    }
}
