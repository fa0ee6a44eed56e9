ghost use Rattle.std.specs.Prelude.{◌≡◌, ◌≢◌, ◌<◌, [], length, IsOk, IfOk, OnOk, OnErr, IfErr, IfSome, IfNone};
ghost use Rattle.sour_versions.specs.History.{read_of, number_of, IsHistoryOf};
ghost use Rattle.sour_table.specs.Reader.{FollowsTable, answered, IsOfProgram};
ghost use Rattle.sour_table.specs.Table.{reader_of, with_bundle, after_read};

use crate::active::Active;
use crate::history_entry::HistoryEntry;
use crate::versions::Versions;
use sour_bundle::{Bundle, Entry};
use sour_syntax::{FunId, Program};
use std::alloc::{AllocError, Global};
use std::marker::Model;
use std::sync::Arc;

/// How many bundles a table takes: with the program, with which its history begins, that makes
/// 4,294,967,295 entries.
const MOST_BUNDLES: usize = 4_294_967_294;

/// The bundle that a table didn't take, for want of memory.
#[derive(Drop)]
pub struct PublishRefused {
    pub bundle: Arc<Bundle>,
}

/// A table of one thread.
#[derive(Drop)]
pub struct PlainTable {
    program: Arc<Program>,
    /// What was published, in order.
    history: Vec<HistoryEntry>,
    /// The active version of each function.
    active: Vec<Active>,
    /// How many reads were answered. It stands still at the greatest `u64`.
    reads: u64,
}

impl Model for PlainTable {
    ghost use Rattle.sour_table.specs.Table.{TableView, table_view, IsTable};

    ghost Value = { TableView };

    ghost view = { λ table. table_view table.program.value table.history.items table.reads };

    ghost invariant = { λ table.
        IsTable table.program.value table.history.items table.active.items };
}

impl PlainTable {
    /// The table of a program for which nothing was published.
    pub fn new(alloc: Global, program: Arc<Program>) -> Result<PlainTable, AllocError>
        ensures { IfOk result (λ table. table ≡ record {
          program = program.value;
          history = [];
          reads = 0;
        }) }
    {
        let mut active = Vec::new(alloc);
        for _ in 0..program.functions().len() {
            active.push(Active {
                number: 0,
                entry: Entry::Text,
            })?;
        }
        Ok(PlainTable {
            program,
            history: Vec::new(alloc),
            active,
            reads: 0,
        })
    }

    /// Publishes a bundle for its function, and answers how many of that function there are now,
    /// which is its number. Where memory is wanting, or room for another entry, the bundle is
    /// handed back and the table is as it was.
    pub fn publish(&mut self, bundle: Arc<Bundle>) -> Result<u32, PublishRefused>
        requires { bundle.value.program ≡ self.old.program }
        ensures published { OnOk result (self.new ≡ with_bundle self.old bundle.value.view) }
        ensures number { IfOk result
            (λ n. n ≡ number_of bundle.value.view.function self.new.history) }
        ensures room { OnOk result (length self.old.history < 4294967294) }
        ensures unchanged { OnErr result (self.new ≡ self.old) }
        ensures returned { IfErr result (λ refused. refused.bundle.value ≡ bundle.value) }

        // The bundle is of one of the program's functions.
        ensures own { bundle.value.view.function.0 < length self.old.program.functions }
        ensures lawful { IsHistoryOf self.new.program self.new.history }
    {
        let function = bundle.function();
        if self.history.len() >= MOST_BUNDLES {
            return Err(PublishRefused { bundle });
        }
        let Ok(kept) = Arc::try_clone(&bundle) else {
            return Err(PublishRefused { bundle });
        };
        if self.history.push(HistoryEntry::Publish(kept)).is_err() {
            return Err(PublishRefused { bundle });
        }
        let active = &mut self.active[function.0 as usize];
        active.number += 1;
        active.entry = Entry::Made(bundle);
        Ok(active.number)
    }

    /// Another table of the same history, which has answered no reads.
    pub fn copy(&self) -> Result<PlainTable, AllocError>
        ensures copied { IfOk result (λ table. table ≡ record self.now { reads = 0 }) }
        ensures lawful { IsHistoryOf self.now.program self.now.history }
    {
        Ok(PlainTable {
            program: self.program.clone()?,
            history: self.history.clone()?,
            active: self.active.clone()?,
            reads: 0,
        })
    }
}

impl Versions for PlainTable {
    ghost reader = { reader_of };

    fn enter(&mut self, function: FunId) -> Result<(u32, Entry), AllocError>
        requires { function.0 < length self.old.program.functions }

        // It answers by its whole history, and changes nothing but its reads.
        ensures read { IfOk result
            (λ answer. answered function answer ≡ read_of function self.old.history) }
        ensures after { OnOk result (self.new ≡ after_read self.old) }
        ensures unchanged { OnErr result (self.new ≡ self.old) }

        // It isn't refused for a function with nothing published.
        ensures text { number_of function self.old.history ≡ 0 → IsOk result }

        // As each reader.
        ensures own { IfOk result (λ answer. IsOfProgram self.old.program answer.1) }
        ensures follows { FollowsTable (reader_of self.old) (reader_of self.new) }
    {
        let active = &self.active[function.0 as usize];
        let answer = (active.number, active.entry.clone()?);
        self.reads = self.reads.saturating_add(1);
        Ok(answer)
    }

    fn enter_unless(
        &mut self,
        function: FunId,
        number: u32,
    ) -> Result<Option<(u32, Entry)>, AllocError>
        requires { function.0 < length self.old.program.functions }

        // It answers by its whole history, and changes nothing but its reads.
        ensures read { IfOk result (λ other. IfSome other
            (λ answer. answered function answer ≡ read_of function self.old.history)) }
        ensures same { IfOk result
            (λ other. IfNone other (number_of function self.old.history ≡ number)) }
        ensures differs { IfOk result (λ other. IfSome other (λ answer. answer.0 ≢ number)) }
        ensures after { OnOk result (self.new ≡ after_read self.old) }
        ensures unchanged { OnErr result (self.new ≡ self.old) }

        // It isn't refused where the number is the same.
        ensures still { number_of function self.old.history ≡ number → result ≡ Ok None }

        // As each reader.
        ensures own { IfOk result
            (λ other. IfSome other (λ answer. IsOfProgram self.old.program answer.1)) }
        ensures follows { FollowsTable (reader_of self.old) (reader_of self.new) }
    {
        if self.active[function.0 as usize].number == number {
            self.reads = self.reads.saturating_add(1);
            return Ok(None);
        }
        Ok(Some(self.enter(function)?))
    }
}
