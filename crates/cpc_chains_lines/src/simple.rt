//! Simple statements that are written.
ghost use Rattle.std.specs.Prelude.{◌≡◌, ◌∷◌, [], None, Some, option_map, OnOk};
ghost use Rattle.cpc_tree.specs.Erase as E;
ghost use Rattle.cpc_tree.specs.Erase.{expr_of, exprs_of, type_of};
ghost use Rattle.cpc_tree.specs.Syntax as S;
ghost use Rattle.cpc_chains_lines.specs.Written.{written, puts};

use crate::out::Out;
use crate::trees::named;
use cpc_base::{Name, NoMemory, Place};
use cpc_convert_images::{both, boxed};
use cpc_num::Op;
use cpc_tree::program::{CType, Expr, Operand, Statement, Word};
use std::alloc::Global;

impl Out {
    /// An empty statement. `NoMemory` is want of memory.
    pub fn empty(&mut self, alloc: Global, place: Place) -> Result<(), NoMemory>
        ensures { OnOk result ((to : E.Names) → written to self.new ≡ puts (written to self.old) (S.Empty ∷ [])) }
    {
        self.put(alloc, Statement::Empty { place })
    }

    /// A local declared. `NoMemory` is want of memory.
    pub fn declare(
        &mut self,
        alloc: Global,
        place: Place,
        name: Name,
        of: CType,
        start: Option<Operand>,
    ) -> Result<(), NoMemory>
        ensures { OnOk result ((to : E.Names) → written to self.new ≡ puts (written to self.old) (S.Declare (to name) (type_of to of) (option_map (expr_of to) start) ∷ [])) }
    {
        let word = Word { place, name };
        self.put(
            alloc,
            Statement::Declare {
                place,
                word,
                of,
                start,
            },
        )
    }

    /// An assignment with an operator or without. `NoMemory` is want of memory.
    pub fn assign_by(
        &mut self,
        alloc: Global,
        place: Place,
        target: Expr,
        op: Option<Op>,
        value: Expr,
    ) -> Result<(), NoMemory>
        ensures { OnOk result ((to : E.Names) → written to self.new ≡ puts (written to self.old) (S.Assign (expr_of to target) op (expr_of to value) ∷ [])) }
    {
        self.put(
            alloc,
            Statement::Assign {
                place,
                operator: place,
                target: Operand::new(target),
                op,
                value: Operand::new(value),
            },
        )
    }

    /// An assignment. `NoMemory` is want of memory.
    pub fn assign(
        &mut self,
        alloc: Global,
        place: Place,
        target: Expr,
        value: Expr,
    ) -> Result<(), NoMemory>
        ensures { OnOk result ((to : E.Names) → written to self.new ≡ puts (written to self.old) (S.Assign (expr_of to target) None (expr_of to value) ∷ [])) }
    {
        self.assign_by(alloc, place, target, None, value)
    }

    /// A call of what an expression stands for. `NoMemory` is want of memory.
    pub fn call_by(
        &mut self,
        alloc: Global,
        place: Place,
        target: Option<Operand>,
        function: Expr,
        arguments: Vec<Expr>,
    ) -> Result<(), NoMemory>
        ensures { OnOk result ((to : E.Names) → written to self.new ≡ puts (written to self.old) (S.Call (option_map (expr_of to) target) (expr_of to function) (exprs_of to arguments.items) ∷ [])) }
    {
        self.put(
            alloc,
            Statement::Call {
                place,
                operator: place,
                target,
                function: Operand::new(function),
                arguments,
            },
        )
    }

    /// A call of a name. `NoMemory` is want of memory.
    pub fn call(
        &mut self,
        alloc: Global,
        place: Place,
        function: Name,
        arguments: Vec<Expr>,
    ) -> Result<(), NoMemory>
        ensures { OnOk result ((to : E.Names) → written to self.new ≡ puts (written to self.old) (S.Call None (S.ENamed (to function)) (exprs_of to arguments.items) ∷ [])) }
    {
        self.call_by(alloc, place, None, named(place, function), arguments)
    }

    /// A call of a name with one argument, whose value goes to a place or to none. `NoMemory` is want of memory.
    pub fn call_one(
        &mut self,
        alloc: Global,
        place: Place,
        target: Option<Operand>,
        function: Name,
        argument: Expr,
    ) -> Result<(), NoMemory>
        ensures { OnOk result ((to : E.Names) → written to self.new ≡ puts (written to self.old) (S.Call (option_map (expr_of to) target) (S.ENamed (to function)) (S.AndExpr (expr_of to argument) S.NoExpr) ∷ [])) }
    {
        let mut arguments = Vec::new(alloc);
        arguments.push(argument)?;
        self.call_by(alloc, place, target, named(place, function), arguments)
    }

    /// A return of a value. `NoMemory` is want of memory.
    pub fn give(&mut self, alloc: Global, place: Place, value: Expr) -> Result<(), NoMemory>
        ensures { OnOk result ((to : E.Names) → written to self.new ≡ puts (written to self.old) (S.Return (Some (expr_of to value)) ∷ [])) }
    {
        self.put(
            alloc,
            Statement::Return {
                place,
                value: Some(Operand::new(value)),
            },
        )
    }

    /// A way to a label. `NoMemory` is want of memory.
    pub fn goto(&mut self, alloc: Global, place: Place, name: Name) -> Result<(), NoMemory>
        ensures { OnOk result ((to : E.Names) → written to self.new ≡ puts (written to self.old) (S.Goto (to name) ∷ [])) }
    {
        let label = Word { place, name };
        self.put(alloc, Statement::Goto { place, label })
    }

    // A statement that is done where a test holds. `NoMemory` is want of memory.
    fn test(
        &mut self,
        alloc: Global,
        place: Place,
        test: Expr,
        then: Statement,
    ) -> Result<(), NoMemory>
        ensures { OnOk result ((to : E.Names) → written to self.new ≡ puts (written to self.old) (S.If (expr_of to test) (E.stmt_of to then) S.Absent ∷ [])) }
    {
        match both(test, boxed(alloc, then)) {
            Ok((test, yes)) => self.put(
                alloc,
                Statement::If {
                    place,
                    test: Operand::new(test),
                    yes,
                    no: None,
                },
            ),
            Err(e) => Err(e),
        }
    }

    /// A way to a label where a test holds. `NoMemory` is want of memory.
    pub fn goto_if(
        &mut self,
        alloc: Global,
        place: Place,
        test: Expr,
        name: Name,
    ) -> Result<(), NoMemory>
        ensures { OnOk result ((to : E.Names) → written to self.new ≡ puts (written to self.old) (S.If (expr_of to test) (S.Goto (to name)) S.Absent ∷ [])) }
    {
        let label = Word { place, name };
        self.test(alloc, place, test, Statement::Goto { place, label })
    }

    /// An assignment where a test holds. `NoMemory` is want of memory.
    pub fn assign_if(
        &mut self,
        alloc: Global,
        place: Place,
        test: Expr,
        target: Expr,
        value: Expr,
    ) -> Result<(), NoMemory>
        ensures { OnOk result ((to : E.Names) → written to self.new ≡ puts (written to self.old) (S.If (expr_of to test) (S.Assign (expr_of to target) None (expr_of to value)) S.Absent ∷ [])) }
    {
        self.test(
            alloc,
            place,
            test,
            Statement::Assign {
                place,
                operator: place,
                target: Operand::new(target),
                op: None,
                value: Operand::new(value),
            },
        )
    }
}
