//! Statements that are written one after the other.
ghost use Rattle.std.specs.Prelude.{◌≡◌, ◌++◌, ◌∷◌, [], None, option_map, map, OnOk, IfOk};
ghost use Rattle.cpc_tree.specs.Erase as E;
ghost use Rattle.cpc_tree.specs.Erase.{stmt_of};
ghost use Rattle.cpc_tree.specs.Syntax as S;
ghost use Rattle.cpc_convert_flat_laws.specs.Flat.{before};
ghost use Rattle.cpc_chains_lines.specs.Written.{Written, written, put};
ghost use Rattle.cpc_tree.specs.declared.program.Word as W;

use cpc_base::{NoMemory, Place};
use cpc_convert_images::{boxed, pushed};
use cpc_tree::program::{Statement, Word};
use std::alloc::Global;
use std::mem;

/// Statements so far, and the label of the next one, if it gets one. Nothing is written before it is whole, so that no statement is let go of
/// outside.
pub struct Out {
    pub(crate) statements: Vec<Statement>,
    pub(crate) label: Option<Word>,
}

// What was written is let go of here: a crate that lets go of it then calls this, and does not prove it again.
impl Drop for Out {
    fn drop(self) {
        let Out {
            statements,
            label: _,
        } = self;
        drop(statements);
    }
}

// A statement with its label, behind others. `NoMemory` is want of memory.
fn push_labelled(
    alloc: Global,
    statements: &mut Vec<Statement>,
    label: Word,
    statement: Statement,
) -> Result<(), NoMemory>
    ensures { OnOk result ((to : E.Names) → map (stmt_of to) statements.new.items ≡ map (stmt_of to) statements.old.items ++ S.Label (to label.name) (stmt_of to statement) ∷ []) }
{
    match boxed(alloc, statement) {
        Ok(inner) => pushed(statements, Statement::Label { label, inner }),
        Err(e) => Err(e),
    }
}

impl Out {
    /// Nothing yet.
    pub fn new(alloc: Global) -> Out
        ensures { (to : E.Names) → written to result ≡ record { done = []; label = None } }
    {
        Out {
            statements: Vec::new(alloc),
            label: None,
        }
    }

    /// The next statement gets this label, or none.
    pub fn label_next(&mut self, label: Option<Word>)
        ensures { (to : E.Names) → written to self.new ≡ record { done = (written to self.old).done; label = option_map (λ (w : W.Word). to w.name) label } }
    {
        self.label = label;
    }

    /// A statement, behind the label that comes next. `NoMemory` is want of memory.
    pub(crate) fn put(&mut self, alloc: Global, statement: Statement) -> Result<(), NoMemory>
        ensures { OnOk result ((to : E.Names) → written to self.new ≡ put (written to self.old) (stmt_of to statement)) }
    {
        match self.label {
            Some(label) => {
                self.label = None;
                push_labelled(alloc, &mut self.statements, label, statement)
            }
            None => pushed(&mut self.statements, statement),
        }
    }

    /// The block of all that is written.
    pub fn into_block(self, alloc: Global, place: Place) -> Statement
        ensures { (to : E.Names) → stmt_of to result ≡ S.Block (before (written to self).done S.NoStmt) }
    {
        let mut out = self;
        let mut inner = Vec::new(alloc);
        mem::swap(&mut out.statements, &mut inner);
        Statement::Block { place, inner }
    }
}
