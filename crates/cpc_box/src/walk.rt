//! The walk through a body that meets its variables and its points in the order of the text.
ghost use Rattle.std.specs.Prelude.{◌≡◌, ◌∷◌, [], ◌++◌, List, map, length, slice_get, false, bytes_eq, Option, Some, None, option_map, OnOk, IfOk};
ghost use Rattle.std.specs.Borrow.{Bor};
ghost use Rattle.cpc_tree.specs.Erase.{Names, expr_of, stmt_of, list_of, maybe_at, type_of, text_of, parameter_of};
ghost use Rattle.cpc_tree.specs.Points as P;
ghost use Rattle.cpc_tree.specs.Syntax as S;
ghost use Rattle.cpc_tree.specs.Typing as T;
ghost use Rattle.cpc_tree.specs.Registers.{or_empty};
ghost use Rattle.cpc_tree.specs.Registers as R;
ghost use Rattle.cpc_eval_variables.specs.Told.{IsTold};
ghost use Rattle.cpc_tree.specs.declared.program.Expr as GExpr;
ghost use Rattle.cpc_base.specs.declared.names.Name as N;
ghost use Rattle.cpc_eval_index.specs.Indexed.{items_of};
ghost use Rattle.cpc_eval_locals.specs.declared.variables.Variable as K;
ghost use Rattle.cpc_forms_code.specs.Points as Q;
ghost use Rattle.cpc_box.specs.Outline.{variable_if, local_if};
ghost use Rattle.cpc_box.specs.Walked.{mark_of, IsSeen};

use crate::around::{Around, manner};
use cpc_base::{Name, NoMemory, is_none};
use cpc_eval_locals::Variable as Kept;
use cpc_forms_code::{BoxedPoint, Manner, Stood, Variable};
use cpc_tree::program::{CType, Expr, Operand, Parameter, Statement, Word};
use std::alloc::Global;

/// What a walk has met: variables and points.
#[derive(Drop)]
pub(crate) struct Walk<'a> {
    pub(crate) variables: Vec<Variable<'a>>,
    pub(crate) points: Vec<BoxedPoint<'a>>,
}

/// What a walk knows: the names of the program, and of each variable whether it is a register.
#[derive(Clone, Copy)]
pub(crate) struct Known<'a> {
    pub(crate) around: Around<'a>,
    pub(crate) kept: &'a [Kept],
}

// Whether the variable of a number is a register.
fn mark(kept: &[Kept], number: usize) -> bool
    ensures { result ≡ mark_of (slice_get kept.now number) }
{
    match kept.get(number) {
        Some(variable) => variable.is_register,
        None => false,
    }
}

impl<'a> Walk<'a> {
    ghost use Rattle.cpc_box.specs.Outline.{declares, declares_in, declares_arm, behind, behind_all, here, arrival, the_end, outline, outline_in, outline_arm};
    ghost use Rattle.cpc_box.specs.Walked.{Chain, Walked, Stands, Came};

    /// Nothing is met.
    pub(crate) fn new(alloc: Global) -> Walk<'a>
        ensures variables { result.variables.items ≡ [] }
        ensures points { result.points.items ≡ [] }
    {
        Walk {
            variables: Vec::new(alloc),
            points: Vec::new(alloc),
        }
    }

    // A point.
    fn push(
        &mut self,
        stood: Stood<'a>,
        scope: Option<usize>,
        manner: Manner,
    ) -> Result<(), NoMemory>
        ensures { OnOk result ((names : Names) (ms : List K.Variable) (p : Q.BoxedPoint) → IsSeen names self.old.variables.items (record { stood = stood.entry; scope = scope; manner = manner }) p → Walked names ms self.old self.new [] (p ∷ [])) }
    {
        self.points.push(BoxedPoint {
            stood,
            scope,
            manner,
        })?;
        Ok(())
    }

    /// The end.
    pub(crate) fn push_end(&mut self) -> Result<(), NoMemory>
        ensures { OnOk result ((names : Names) (ms : List K.Variable) → Walked names ms self.old self.new [] (the_end ∷ [])) }
    {
        self.push(Stood::End, None, Manner::InPlace)
    }

    // A test.
    fn push_test(&mut self, test: Option<&'a Expr>, scope: Option<usize>) -> Result<(), NoMemory>
        ensures { OnOk result ((names : Names) (ms : List K.Variable) (p : S.Program) (sc : T.Scope) → Chain names self.old.variables.items scope sc
            → Walked names ms self.old self.new [] (here p sc (P.Test (option_map (λ (t : Bor GExpr.Expr). expr_of names t.now) test.entry)) ∷ [])) }
    {
        self.push(Stood::Test(test), scope, Manner::InPlace)
    }

    // The test of a `for`, which may be absent.
    fn push_maybe(
        &mut self,
        test: &'a Option<Operand>,
        scope: Option<usize>,
    ) -> Result<(), NoMemory>
        ensures { OnOk result ((names : Names) (ms : List K.Variable) (p : S.Program) (sc : T.Scope) → Chain names self.old.variables.items scope sc
            → Walked names ms self.old self.new [] (here p sc (P.Test (option_map (expr_of names) test.now)) ∷ [])) }
    {
        match test {
            Some(test) => self.push_test(Some(test.expr()), scope),
            None => self.push_test(None, scope),
        }
    }

    // A block without statements.
    fn push_empty(&mut self, scope: Option<usize>) -> Result<(), NoMemory>
        ensures { OnOk result ((names : Names) (ms : List K.Variable) (p : S.Program) (sc : T.Scope) → Chain names self.old.variables.items scope sc
            → Walked names ms self.old self.new [] (here p sc (P.Simple S.Empty) ∷ [])) }
    {
        self.push(Stood::Empty, scope, Manner::InPlace)
    }

    // A simple statement.
    fn push_simple(
        &mut self,
        s: &'a Statement,
        scope: Option<usize>,
        known: Known<'_>,
    ) -> Result<(), NoMemory>
        ensures { OnOk result ((names : Names) (sc : T.Scope) → Stands names known.entry.around.texts.now self.old scope sc
            → Walked names known.entry.kept.now self.old self.new [] (here (items_of names known.entry.around.index.now) sc (P.Simple (stmt_of names s.now)) ∷ [])) }
    {
        let manner = manner(known.around, &self.variables, scope, s);
        self.push(Stood::Simple(s), scope, manner)
    }

    // The arrival at a call or a section.
    fn push_arrival(
        &mut self,
        s: &'a Statement,
        scope: Option<usize>,
        known: Known<'_>,
    ) -> Result<(), NoMemory>
        ensures { OnOk result ((names : Names) (sc : T.Scope) → Stands names known.entry.around.texts.now self.old scope sc
            → Walked names known.entry.kept.now self.old self.new [] (arrival (items_of names known.entry.around.index.now) sc (P.Simple (stmt_of names s.now)) ∷ [])) }
    {
        let manner = manner(known.around, &self.variables, scope, s);
        self.push(Stood::Arrival(s), scope, manner)
    }

    /// A variable declared, inside of the one that is the innermost in scope; its number.
    pub(crate) fn declare(
        &mut self,
        name: Option<Name>,
        of: &'a CType,
        scope: Option<usize>,
        kept: &[Kept],
    ) -> Result<usize, NoMemory>
        ensures number { IfOk result (λ number. number ≡ length self.old.variables.items) }
        ensures came { IfOk result (λ number. (names : Names) (sc : T.Scope) → Chain names self.old.variables.items scope sc → (name ≡ None → (x : N.Name) → bytes_eq [] (names x) ≡ false)
            → Came names kept.now self.old self.new (record { called = or_empty (option_map (text_of names) name); type = type_of names of.now } ∷ []) [] (Some number)
            (record { called = or_empty (option_map (text_of names) name); type = type_of names of.now; slot = length self.old.variables.items } ∷ sc)) }
    {
        let number = self.variables.len();
        self.variables.push(Variable {
            name,
            of,
            is_register: mark(kept, number),
            outer: scope,
        })?;
        Ok(number)
    }

    /// The parameters of a function; the last of them is the innermost variable in scope.
    pub(crate) fn parameters(
        &mut self,
        parameters: &'a [Parameter],
        kept: &[Kept],
    ) -> Result<Option<usize>, NoMemory>
        requires { self.old.variables.items ≡ [] }
        ensures { IfOk result (λ after. (names : Names) → IsTold names parameters.now
            → Came names kept.now self.old self.new (map R.as_variable (map (parameter_of names) parameters.now)) [] after (R.parameter_scope 0 (map (parameter_of names) parameters.now) [])) }
    {
        let mut inner = None;
        for parameter in parameters {
            inner = Some(self.parameter(parameter, inner, kept)?);
        }
        Ok(inner)
    }

    // A parameter; its number.
    fn parameter(
        &mut self,
        parameter: &'a Parameter,
        scope: Option<usize>,
        kept: &[Kept],
    ) -> Result<usize, NoMemory>
        ensures { IfOk result (λ number. (names : Names) (sc : T.Scope) → Chain names self.old.variables.items scope sc → (parameter.now.word ≡ None → (x : N.Name) → bytes_eq [] (names x) ≡ false)
            → Came names kept.now self.old self.new (R.as_variable (parameter_of names parameter.now) ∷ []) [] (Some number)
            (record { called = or_empty (parameter_of names parameter.now).called; type = type_of names parameter.now.of; slot = length self.old.variables.items } ∷ sc)) }
    {
        match parameter.word {
            Some(word) => self.declare(Some(word.name), &parameter.of, scope, kept),
            None => self.declare(None, &parameter.of, scope, kept),
        }
    }

    // A local, which is no variable of its own where the scope is fixed; the innermost variable in scope behind it.
    fn local(
        &mut self,
        word: &Word,
        of: &'a CType,
        fixed: bool,
        scope: Option<usize>,
        kept: &[Kept],
    ) -> Result<Option<usize>, NoMemory>
        ensures { IfOk result (λ after. (names : Names) (sc : T.Scope) → Chain names self.old.variables.items scope sc
            → Came names kept.now self.old self.new (variable_if fixed (record { called = names word.now.name; type = type_of names of.now })) [] after
            (local_if fixed (record { called = names word.now.name; type = type_of names of.now; slot = length self.old.variables.items }) sc)) }
    {
        if fixed {
            return Ok(scope);
        }
        let number = self.declare(Some(word.name), of, scope, kept)?;
        Ok(Some(number))
    }

    /// What a statement has; a local that it declares is in scope at its own point alone.
    #[cycle(walked)]
    pub(crate) fn inside(
        &mut self,
        s: &'a Statement,
        fixed: bool,
        scope: Option<usize>,
        known: Known<'_>,
    ) -> Result<(), NoMemory>
        ensures { OnOk result ((names : Names) (sc : T.Scope) → Stands names known.entry.around.texts.now self.old scope sc
            → Walked names known.entry.kept.now self.old self.new (declares fixed (stmt_of names s.now)) (outline (items_of names known.entry.around.index.now) fixed sc (length self.old.variables.items) (stmt_of names s.now))) }
    {
        match s {
            Statement::Block { inner, .. } => self.block(inner, fixed, scope, known),
            Statement::Call { .. } | Statement::Detach { .. } => {
                self.push_simple(s, scope, known)?;
                self.push_arrival(s, scope, known)
            }
            Statement::If { test, yes, no, .. } => {
                self.push_test(Some(test.expr()), scope)?;
                self.inside(yes, fixed, scope, known)?;
                self.arm(no, fixed, scope, known)
            }
            Statement::While { test, body, .. } => {
                self.push_test(Some(test.expr()), scope)?;
                self.inside(body, fixed, scope, known)
            }
            Statement::DoWhile { body, test, .. } => {
                self.inside(body, fixed, scope, known)?;
                self.push_test(Some(test.expr()), scope)
            }
            Statement::For {
                first,
                test,
                step,
                body,
                ..
            } => {
                let inner = self.row(first, fixed, scope, known)?;
                self.push_maybe(test, inner)?;
                self.arm(step, true, inner, known)?;
                self.inside(body, fixed, inner, known)
            }
            Statement::Label { inner, .. } => self.inside(inner, fixed, scope, known),
            Statement::Declare { word, of, .. } => {
                let inner = self.local(word, of, fixed, scope, known.kept)?;
                self.push_simple(s, inner, known)
            }
            _ => self.push_simple(s, scope, known),
        }
    }

    // A statement of a row; the innermost variable in scope behind it.
    #[cycle(walked)]
    fn statement(
        &mut self,
        s: &'a Statement,
        fixed: bool,
        scope: Option<usize>,
        known: Known<'_>,
    ) -> Result<Option<usize>, NoMemory>
        ensures { IfOk result (λ after. (names : Names) (sc : T.Scope) → Stands names known.entry.around.texts.now self.old scope sc
            → Came names known.entry.kept.now self.old self.new (declares fixed (stmt_of names s.now)) (outline (items_of names known.entry.around.index.now) fixed sc (length self.old.variables.items) (stmt_of names s.now))
            after (behind fixed sc (length self.old.variables.items) (stmt_of names s.now))) }
    {
        match s {
            Statement::Declare { word, of, .. } => {
                let inner = self.local(word, of, fixed, scope, known.kept)?;
                self.push_simple(s, inner, known)?;
                Ok(inner)
            }
            _ => {
                self.inside(s, fixed, scope, known)?;
                Ok(scope)
            }
        }
    }

    // A row of statements; the innermost variable in scope behind it.
    #[cycle(walked)]
    fn row(
        &mut self,
        row: &'a [Statement],
        fixed: bool,
        scope: Option<usize>,
        known: Known<'_>,
    ) -> Result<Option<usize>, NoMemory>
        ensures { IfOk result (λ after. (names : Names) (sc : T.Scope) → Stands names known.entry.around.texts.now self.old scope sc
            → Came names known.entry.kept.now self.old self.new (declares_in fixed (list_of names row.now)) (outline_in (items_of names known.entry.around.index.now) fixed sc (length self.old.variables.items) (list_of names row.now))
            after (behind_all fixed sc (length self.old.variables.items) (list_of names row.now))) }
    {
        let mut inner = scope;
        for s in row {
            inner = self.statement(s, fixed, inner, known)?;
        }
        Ok(inner)
    }

    // A block; one without statements is itself a point.
    #[cycle(walked)]
    fn block(
        &mut self,
        row: &'a [Statement],
        fixed: bool,
        scope: Option<usize>,
        known: Known<'_>,
    ) -> Result<(), NoMemory>
        ensures { OnOk result ((names : Names) (sc : T.Scope) → Stands names known.entry.around.texts.now self.old scope sc
            → Walked names known.entry.kept.now self.old self.new (declares fixed (S.Block (list_of names row.now))) (outline (items_of names known.entry.around.index.now) fixed sc (length self.old.variables.items) (S.Block (list_of names row.now)))) }
    {
        if is_none(row) {
            return self.push_empty(scope);
        }
        self.row(row, fixed, scope, known)?;
        Ok(())
    }

    // A statement that may be absent.
    #[cycle(walked)]
    fn arm(
        &mut self,
        arm: &'a Option<Box<Statement>>,
        fixed: bool,
        scope: Option<usize>,
        known: Known<'_>,
    ) -> Result<(), NoMemory>
        ensures { OnOk result ((names : Names) (sc : T.Scope) → Stands names known.entry.around.texts.now self.old scope sc
            → Walked names known.entry.kept.now self.old self.new (declares_arm fixed (maybe_at names arm.now)) (outline_arm (items_of names known.entry.around.index.now) fixed sc (length self.old.variables.items) (maybe_at names arm.now))) }
    {
        match arm {
            Some(s) => self.inside(s, fixed, scope, known),
            None => Ok(()),
        }
    }
}
