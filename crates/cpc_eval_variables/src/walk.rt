//! A walk through the body of a function: its locals in the order of the text, and the variables to which `&` is applied.
ghost use Rattle.std.specs.Prelude.{◌≡◌, ◌+◌, ◌++◌, ◌≤◌, take, length, OnOk, IfOk, map, option_map};
ghost use Rattle.cpc_tree.specs.Syntax.{Declare};
ghost use Rattle.cpc_tree.specs.Erase.{Names, type_of, expr_of, stmt_of, list_of, maybe_at, parameter_of, function_of};
ghost use Rattle.cpc_tree.specs.Points as P;
ghost use Rattle.cpc_tree.specs.Registers as R;
ghost use Rattle.cpc_eval_variables.specs.Told.{IsTold};
ghost use Rattle.cpc_eval_variables.specs.Addressed.{leaf_addresses};
ghost use Rattle.cpc_eval_variables.specs.Scoped.{scope_of};
ghost use Rattle.cpc_eval_variables.specs.Typed.{types_in, types_of};

use crate::addresses::{
    add_addresses, add_addresses_if, add_all_addresses, add_both_addresses, add_call_addresses,
    add_section_addresses,
};
use crate::scope::{Local, Scope};
use cpc_base::NoMemory;
use cpc_tree::program::{CType, Function, Operand, Parameter, Statement, Word};
use std::alloc::Global;

/// What a walk has come to: the names in scope, the types of the variables so far, and the numbers of those to which `&`
/// is applied.
pub(crate) struct Walk<'f> {
    scope: Scope<'f>,
    pub(crate) types: Vec<&'f CType>,
    pub(crate) addressed: Vec<usize>,
}

impl Drop for Walk<'_> {
    fn drop(self) {
        let Walk {
            scope,
            types,
            addressed,
        } = self;
        drop(scope);
        drop(types);
        drop(addressed);
    }
}

/// Adds the variables to which `&` is applied in the parts of a statement that has no statement in it and declares nothing.
fn add_parts(s: &Statement, scope: &Scope<'_>, found: &mut Vec<usize>) -> Result<(), NoMemory>
    ensures { OnOk result ((names : Names) → IsTold names scope.now.parameters.now → found.new.items ≡ found.old.items ++ leaf_addresses (scope_of names scope.now) (stmt_of names s.now)) }
{
    match s {
        Statement::Assign { target, value, .. } => add_both_addresses(
            target.expr(),
            value.expr(),
            scope,
            found,
        ),
        Statement::Call {
            target,
            function,
            arguments,
            ..
        } => add_call_addresses(target, function.expr(), arguments, scope, found),
        Statement::Detach {
            target,
            arguments,
            ..
        } => add_section_addresses(target, arguments, scope, found),
        Statement::Spawn { arguments, .. } => add_all_addresses(arguments, scope, found),
        Statement::Return { value, .. } => add_addresses_if(value, scope, found),
        _ => Ok(()),
    }
}

/// The types of parameters.
fn parameter_types<'f>(
    alloc: Global,
    parameters: &'f [Parameter],
) -> Result<Vec<&'f CType>, NoMemory>
    ensures count { IfOk result (λ types. length types.items ≡ length parameters.now) }
    ensures types { IfOk result (λ types. (names : Names) → types_of names types.items ≡ types_in (map R.as_variable (map (parameter_of names) parameters.now))) }
{
    let mut types = Vec::new(alloc);
    for parameter in parameters {
        types.push(&parameter.of)?;
    }
    Ok(types)
}

impl<'f> Walk<'f> {
    /// The walk through a function: all its variables, and all to which `&` is applied. `NoMemory` is want of memory.
    pub(crate) fn of(alloc: Global, function: &'f Function) -> Result<Walk<'f>, NoMemory>
        ensures types { IfOk result (λ walk. (names : Names) → types_of names walk.types.items ≡ types_in (R.variables (function_of names function.now))) }
        ensures addressed { IfOk result (λ walk. (names : Names) → IsTold names function.now.parameters.items → walk.addressed.items ≡ R.addressed (function_of names function.now)) }
    {
        let mut walk = Walk {
            scope: Scope::new(alloc, &function.parameters),
            types: parameter_types(alloc, &function.parameters)?,
            addressed: Vec::new(alloc),
        };
        walk.inside(&function.body, function.parameters.len())?;
        Ok(walk)
    }

    // A local declared, whose number is this.
    fn declare(
        &mut self,
        word: &Word,
        of: &'f CType,
        start: &Option<Operand>,
        slot: usize,
    ) -> Result<(), NoMemory>
        ensures parameters { self.new.scope.parameters.now ≡ self.old.scope.parameters.now }
        ensures kept { OnOk result (take (length self.old.scope.locals.items) self.new.scope.locals.items ≡ self.old.scope.locals.items) }
        ensures scope { OnOk result ((names : Names) → scope_of names self.new.scope ≡ P.extended (scope_of names self.old.scope) slot (Declare (names word.now.name) (type_of names of.now) (option_map (expr_of names) start.now))) }
        ensures counted { OnOk result (take (length self.old.types.items) self.new.types.items ≡ self.old.types.items) }
        ensures types { OnOk result ((names : Names) → types_of names self.new.types.items ≡ types_of names self.old.types.items ++ types_in (P.locals (Declare (names word.now.name) (type_of names of.now) (option_map (expr_of names) start.now)))) }
        ensures addressed { OnOk result ((names : Names) → IsTold names self.old.scope.parameters.now
            → self.new.addressed.items ≡ self.old.addressed.items ++ R.addresses_by (scope_of names self.old.scope) slot (Declare (names word.now.name) (type_of names of.now) (option_map (expr_of names) start.now))) }
    {
        self.types.push(of)?;
        self.scope.declare(Local {
            name: word.name,
            of,
            slot,
        })?;
        add_addresses_if(start, &self.scope, &mut self.addressed)
    }

    // The same, where the local does not stay in scope.
    fn alone(
        &mut self,
        word: &Word,
        of: &'f CType,
        start: &Option<Operand>,
        slot: usize,
    ) -> Result<(), NoMemory>
        ensures parameters { self.new.scope.parameters.now ≡ self.old.scope.parameters.now }
        ensures locals { OnOk result (self.new.scope.locals.items ≡ self.old.scope.locals.items) }
        ensures counted { OnOk result (take (length self.old.types.items) self.new.types.items ≡ self.old.types.items) }
        ensures types { OnOk result ((names : Names) → types_of names self.new.types.items ≡ types_of names self.old.types.items ++ types_in (P.locals (Declare (names word.now.name) (type_of names of.now) (option_map (expr_of names) start.now)))) }
        ensures addressed { OnOk result ((names : Names) → IsTold names self.old.scope.parameters.now
            → self.new.addressed.items ≡ self.old.addressed.items ++ R.addresses_by (scope_of names self.old.scope) slot (Declare (names word.now.name) (type_of names of.now) (option_map (expr_of names) start.now))) }
    {
        let depth = self.scope.depth();
        self.declare(word, of, start, slot)?;
        self.scope.leave(depth);
        Ok(())
    }

    // A statement of a row, where so many variables come before it: a local that it declares stays in scope.
    #[cycle(walked)]
    fn statement(&mut self, s: &'f Statement, n: usize) -> Result<(), NoMemory>
        requires { n ≤ length self.old.types.items }
        ensures parameters { self.new.scope.parameters.now ≡ self.old.scope.parameters.now }
        ensures kept { OnOk result (take (length self.old.scope.locals.items) self.new.scope.locals.items ≡ self.old.scope.locals.items) }
        ensures scope { OnOk result ((names : Names) → scope_of names self.new.scope ≡ P.extended (scope_of names self.old.scope) n (stmt_of names s.now)) }
        ensures counted { OnOk result (take (length self.old.types.items) self.new.types.items ≡ self.old.types.items) }
        ensures types { OnOk result ((names : Names) → types_of names self.new.types.items ≡ types_of names self.old.types.items ++ types_in (P.locals (stmt_of names s.now))) }
        ensures addressed { OnOk result ((names : Names) → IsTold names self.old.scope.parameters.now → self.new.addressed.items ≡ self.old.addressed.items ++ R.addresses_by (scope_of names self.old.scope) n (stmt_of names s.now)) }
    {
        match s {
            Statement::Declare {
                word,
                of,
                start,
                ..
            } => self.declare(word, of, start, n),
            _ => self.inside(s, n),
        }
    }

    // A row of statements.
    #[cycle(walked)]
    fn row(&mut self, row: &'f [Statement], n: usize) -> Result<(), NoMemory>
        requires { n ≤ length self.old.types.items }
        ensures parameters { self.new.scope.parameters.now ≡ self.old.scope.parameters.now }
        ensures kept { OnOk result (take (length self.old.scope.locals.items) self.new.scope.locals.items ≡ self.old.scope.locals.items) }
        ensures scope { OnOk result ((names : Names) → scope_of names self.new.scope ≡ P.extended_all (scope_of names self.old.scope) n (list_of names row.now)) }
        ensures counted { OnOk result (take (length self.old.types.items) self.new.types.items ≡ self.old.types.items) }
        ensures types { OnOk result ((names : Names) → types_of names self.new.types.items ≡ types_of names self.old.types.items ++ types_in (P.locals_in (list_of names row.now))) }
        ensures addressed { OnOk result ((names : Names) → IsTold names self.old.scope.parameters.now → self.new.addressed.items ≡ self.old.addressed.items ++ R.addresses_in (scope_of names self.old.scope) n (list_of names row.now)) }
    {
        let mut n = n;
        for s in row {
            let before = self.types.len();
            self.statement(s, n)?;
            n += self.types.len() - before;
        }
        Ok(())
    }

    // A block.
    #[cycle(walked)]
    fn block(&mut self, row: &'f [Statement], n: usize) -> Result<(), NoMemory>
        requires { n ≤ length self.old.types.items }
        ensures parameters { self.new.scope.parameters.now ≡ self.old.scope.parameters.now }
        ensures locals { OnOk result (self.new.scope.locals.items ≡ self.old.scope.locals.items) }
        ensures counted { OnOk result (take (length self.old.types.items) self.new.types.items ≡ self.old.types.items) }
        ensures types { OnOk result ((names : Names) → types_of names self.new.types.items ≡ types_of names self.old.types.items ++ types_in (P.locals_in (list_of names row.now))) }
        ensures addressed { OnOk result ((names : Names) → IsTold names self.old.scope.parameters.now → self.new.addressed.items ≡ self.old.addressed.items ++ R.addresses_in (scope_of names self.old.scope) n (list_of names row.now)) }
    {
        let depth = self.scope.depth();
        self.row(row, n)?;
        self.scope.leave(depth);
        Ok(())
    }

    // A statement that may be absent.
    #[cycle(walked)]
    fn arm(&mut self, arm: &'f Option<Box<Statement>>, n: usize) -> Result<(), NoMemory>
        requires { n ≤ length self.old.types.items }
        ensures parameters { self.new.scope.parameters.now ≡ self.old.scope.parameters.now }
        ensures locals { OnOk result (self.new.scope.locals.items ≡ self.old.scope.locals.items) }
        ensures counted { OnOk result (take (length self.old.types.items) self.new.types.items ≡ self.old.types.items) }
        ensures types { OnOk result ((names : Names) → types_of names self.new.types.items ≡ types_of names self.old.types.items ++ types_in (P.locals_arm (maybe_at names arm.now))) }
        ensures addressed { OnOk result ((names : Names) → IsTold names self.old.scope.parameters.now → self.new.addressed.items ≡ self.old.addressed.items ++ R.addresses_arm (scope_of names self.old.scope) n (maybe_at names arm.now)) }
    {
        match arm {
            Some(s) => self.inside(s, n),
            None => Ok(()),
        }
    }

    // The step of a loop, which declares nothing that counts.
    #[cycle(walked)]
    fn step(&mut self, step: &'f Option<Box<Statement>>, n: usize) -> Result<(), NoMemory>
        requires { n ≤ length self.old.types.items }
        ensures parameters { self.new.scope.parameters.now ≡ self.old.scope.parameters.now }
        ensures locals { OnOk result (self.new.scope.locals.items ≡ self.old.scope.locals.items) }
        ensures types { OnOk result (self.new.types.items ≡ self.old.types.items) }
        ensures addressed { OnOk result ((names : Names) → IsTold names self.old.scope.parameters.now → self.new.addressed.items ≡ self.old.addressed.items ++ R.addresses_arm (scope_of names self.old.scope) n (maybe_at names step.now)) }
    {
        let count = self.types.len();
        self.arm(step, n)?;
        self.types.truncate(count);
        Ok(())
    }

    // A statement on its own, and how many variables come behind it.
    #[cycle(walked)]
    fn counted(&mut self, s: &'f Statement, n: usize) -> Result<usize, NoMemory>
        requires { n ≤ length self.old.types.items }
        ensures behind { IfOk result (λ after. (names : Names) → after ≡ n + P.declared (stmt_of names s.now)) }
        ensures within { IfOk result (λ after. after ≤ length self.new.types.items) }
        ensures parameters { self.new.scope.parameters.now ≡ self.old.scope.parameters.now }
        ensures locals { OnOk result (self.new.scope.locals.items ≡ self.old.scope.locals.items) }
        ensures counted { OnOk result (take (length self.old.types.items) self.new.types.items ≡ self.old.types.items) }
        ensures types { OnOk result ((names : Names) → types_of names self.new.types.items ≡ types_of names self.old.types.items ++ types_in (P.locals (stmt_of names s.now))) }
        ensures addressed { OnOk result ((names : Names) → IsTold names self.old.scope.parameters.now → self.new.addressed.items ≡ self.old.addressed.items ++ R.addresses_by (scope_of names self.old.scope) n (stmt_of names s.now)) }
    {
        let before = self.types.len();
        self.inside(s, n)?;
        Ok(n + (self.types.len() - before))
    }

    // What stands first in a `for`, and its test; and how many variables come behind them.
    #[cycle(walked)]
    fn header(
        &mut self,
        first: &'f [Statement],
        test: &Option<Operand>,
        n: usize,
    ) -> Result<usize, NoMemory>
        requires { n ≤ length self.old.types.items }
        ensures behind { IfOk result (λ after. (names : Names) → after ≡ n + length (P.locals_in (list_of names first.now))) }
        ensures within { IfOk result (λ after. after ≤ length self.new.types.items) }
        ensures longer { OnOk result (n ≤ length self.new.types.items) }
        ensures parameters { self.new.scope.parameters.now ≡ self.old.scope.parameters.now }
        ensures kept { OnOk result (take (length self.old.scope.locals.items) self.new.scope.locals.items ≡ self.old.scope.locals.items) }
        ensures scope { OnOk result ((names : Names) → scope_of names self.new.scope ≡ P.extended_all (scope_of names self.old.scope) n (list_of names first.now)) }
        ensures counted { OnOk result (take (length self.old.types.items) self.new.types.items ≡ self.old.types.items) }
        ensures types { OnOk result ((names : Names) → types_of names self.new.types.items ≡ types_of names self.old.types.items ++ types_in (P.locals_in (list_of names first.now))) }
        ensures addressed { OnOk result ((names : Names) → IsTold names self.old.scope.parameters.now
            → self.new.addressed.items ≡ self.old.addressed.items ++ (R.addresses_in (scope_of names self.old.scope) n (list_of names first.now) ++ R.addresses_if (P.extended_all (scope_of names self.old.scope) n (list_of names first.now)) (option_map (expr_of names) test.now))) }
    {
        let before = self.types.len();
        self.row(first, n)?;
        let after = n + (self.types.len() - before);
        add_addresses_if(test, &self.scope, &mut self.addressed)?;
        Ok(after)
    }

    // A statement on its own, where so many variables come before it: what it declares does not stay in scope.
    #[cycle(walked)]
    fn inside(&mut self, s: &'f Statement, n: usize) -> Result<(), NoMemory>
        requires { n ≤ length self.old.types.items }
        ensures parameters { self.new.scope.parameters.now ≡ self.old.scope.parameters.now }
        ensures locals { OnOk result (self.new.scope.locals.items ≡ self.old.scope.locals.items) }
        ensures counted { OnOk result (take (length self.old.types.items) self.new.types.items ≡ self.old.types.items) }
        ensures types { OnOk result ((names : Names) → types_of names self.new.types.items ≡ types_of names self.old.types.items ++ types_in (P.locals (stmt_of names s.now))) }
        ensures addressed { OnOk result ((names : Names) → IsTold names self.old.scope.parameters.now → self.new.addressed.items ≡ self.old.addressed.items ++ R.addresses_by (scope_of names self.old.scope) n (stmt_of names s.now)) }
    {
        match s {
            Statement::Block { inner, .. } => self.block(inner, n),
            Statement::Declare {
                word,
                of,
                start,
                ..
            } => self.alone(word, of, start, n),
            Statement::If { test, yes, no, .. } => {
                add_addresses(test.expr(), &self.scope, &mut self.addressed)?;
                let after = self.counted(yes, n)?;
                self.arm(no, after)
            }
            Statement::While { test, body, .. } => {
                add_addresses(test.expr(), &self.scope, &mut self.addressed)?;
                self.inside(body, n)
            }
            Statement::DoWhile { body, test, .. } => {
                self.inside(body, n)?;
                add_addresses(test.expr(), &self.scope, &mut self.addressed)
            }
            Statement::For {
                first,
                test,
                step,
                body,
                ..
            } => {
                let depth = self.scope.depth();
                let after = self.header(first, test, n)?;
                self.step(step, n)?;
                self.inside(body, after)?;
                self.scope.leave(depth);
                Ok(())
            }
            Statement::Label { inner, .. } => self.inside(inner, n),
            _ => add_parts(s, &self.scope, &mut self.addressed),
        }
    }
}
