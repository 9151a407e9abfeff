//! The locals of a function.
ghost use Rattle.std.specs.Prelude.{◌≡◌, ◌<◌, ◌^◌, length, map, [], false, None, Some, if◌then◌else◌, bytes_eq, IfOk};
ghost use Rattle.cpc_tree.specs.Erase.{Names, type_of, stmt_of, parameter_of, function_of};
ghost use Rattle.cpc_tree.specs.Registers as R;
ghost use Rattle.cpc_shapes.specs.Apart.{AreApart};
ghost use Rattle.cpc_native_points.specs.Bodies.{body_of};
ghost use Rattle.cpc_native_points.specs.Seen.{path_of};
ghost use Rattle.cpc_eval_variables.specs.Told.{IsTold};
ghost use Rattle.cpc_eval_variables.specs.Kept.{kept_from, types_kept};
ghost use Rattle.cpc_eval_variables.specs.Typed.{types_in};
ghost use Rattle.cpc_eval_locals.specs.Held.{held_among, local_in, capped_held};
ghost use Rattle.cpc_eval_locals.specs.Kept.{kept_by};
ghost use Rattle.cpc_eval_locals.specs.Locals.{held_of};
ghost use Rattle.cpc_eval_locals.specs.Marks as M;
ghost use Rattle.cpc_eval_locals.specs.Seen.{marks_seen};
ghost use Rattle.cpc_eval_locals.specs.Tabled.{IsFunctionTable};

use crate::looking::{Local, Reached, look, own_after};
use crate::marks::{Mark, mark_parts, own_of};
use crate::variables::{Variable, variables_of};
use cpc_base::{Name, NoMemory};
use cpc_native_points::{BodyTable, Labels, Part};
use cpc_tree::program::{Function, Parameter, Statement};
use std::alloc::Global;

/// What is found out of a function once: its variables, the statements of its body that declare locals, and where its labels
/// lead. It has nothing of the function itself, so it can be kept beside it.
pub struct FunctionTable {
    pub(crate) marks: Vec<Mark>,
    pub(crate) variables: Vec<Variable>,
    pub(crate) labels: BodyTable,
}

impl Drop for FunctionTable {
    fn drop(self) {
        let FunctionTable {
            marks,
            variables,
            labels,
        } = self;
        drop(marks);
        drop(variables);
        drop(labels);
    }
}

/// The parameters and the locals of a function, in order, and by name and place, and its labels, by the function's table. A
/// call takes a time that grows with the number of the locals and how deep they stand, and not with the length of the function.
#[derive(Clone, Copy)]
pub struct Locals<'p> {
    function: &'p Function,
    table: &'p FunctionTable,
    ghost tabled: { ∥ IsFunctionTable function.now table.now ∥₁ },
}

// What a name stands for after a parameter, of which so many come before it.
fn with_parameter<'a>(
    parameter: &'a Parameter,
    slot: u64,
    name: Name,
    held: Option<Local<'a>>,
) -> Option<Local<'a>>
    ensures { (names : Names) → AreApart names → (parameter.now.word ≡ None → bytes_eq [] (names name) ≡ false)
        → held_of names result ≡ (if bytes_eq (R.or_empty (parameter_of names parameter.now).called) (names name) then Some (slot, type_of names parameter.now.of) else held_of names held.entry) }
{
    match &parameter.word {
        Some(word) => {
            if word.name.0 == name.0 {
                Some(Local {
                    slot,
                    of: &parameter.of,
                })
            } else {
                held
            }
        }
        None => held,
    }
}

// What a name stands for among the parameters of a function: the last that has it.
fn last_parameter<'a>(parameters: &'a [Parameter], name: Name) -> Option<Local<'a>>
    ensures { (names : Names) → IsTold names parameters.now → held_of names result ≡ held_among (names name) 0 (map (parameter_of names) parameters.now) }
{
    let mut held = None;
    for (slot, parameter) in parameters.iter().enumerate() {
        held = with_parameter(parameter, slot as u64, name, held);
    }
    held
}

// How many parameters there are, and what a name stands for where a body begins.
fn outside<'p>(parameters: &'p [Parameter], body: &'p Statement, name: Name) -> Reached<'p>
    ensures depth { result.depth ≡ 0 }
    ensures count { result.count ≡ length parameters.now }
    ensures few { result.count < 2 ^ 64 }
    ensures held { (names : Names) → IsTold names parameters.now
        → held_of names result.held ≡ M.own_after (names name) result.count (held_among (names name) 0 (map (parameter_of names) parameters.now)) (M.own_of (stmt_of names body.now)) }
{
    let count = parameters.len() as u64;
    let outer = last_parameter(parameters, name);
    let own = own_of(body);
    let held = own_after(own, name, count, outer);
    Reached {
        depth: 0,
        count,
        held,
    }
}

// The marks of a body. `NoMemory` is want of memory.
fn marks_of(alloc: Global, body: &Statement) -> Result<Vec<Mark>, NoMemory>
    ensures { IfOk result (λ marks. (names : Names) → marks_seen names marks.items ≡ M.marks 0 (stmt_of names body.now)) }
{
    let mut marks = Vec::new(alloc);
    mark_parts(alloc, body, 0, &mut marks)?;
    Ok(marks)
}

impl FunctionTable {
    /// The table of a function. `NoMemory` is want of memory.
    pub fn of(alloc: Global, function: &Function) -> Result<FunctionTable, NoMemory>
        ensures { IfOk result (λ table. IsFunctionTable function.now table) }
    {
        let marks = marks_of(alloc, &function.body)?;
        let variables = variables_of(alloc, function)?;
        let labels = BodyTable::of(alloc, &function.body)?;
        Ok(FunctionTable {
            marks,
            variables,
            labels,
        })
    }
}

impl<'p> Locals<'p> {
    ghost use Rattle.cpc_eval_locals.specs.Owners.{owner_of};

    /// The locals of a function, by a table of it.
    pub fn over(function: &'p Function, table: &'p FunctionTable) -> Locals<'p>
        requires { ∥ IsFunctionTable function.now table.now ∥₁ }
        ensures { owner_of result ≡ function.now }
    {
        Locals { function, table }
    }

    /// The variables of the function in order: its parameters, and then its locals in the order of the text. It takes no
    /// memory.
    pub fn variables(&self) -> &'p [Variable]
        ensures kept { (names : Names) → IsTold names (owner_of self.now).parameters.items
            → kept_by names result.now ≡ kept_from (function_of names (owner_of self.now)) 0 (R.variables (function_of names (owner_of self.now))) }
        ensures types { (names : Names) → types_kept (kept_by names result.now) ≡ types_in (R.variables (function_of names (owner_of self.now))) }
    {
        &self.table.variables
    }

    /// The labels of the function's body. It takes no memory.
    pub fn labels(&self) -> Labels<'p>
        ensures { ∥ body_of result ≡ (owner_of self.now).body ∥₁ }
    {
        Labels::over(&self.function.body, &self.table.labels)
    }

    /// The innermost parameter or local that a name stands for at a path of the function's body. It takes no memory. A
    /// number above `u64::MAX` is `u64::MAX`.
    pub fn at(&self, path: &[Part], name: Name) -> Option<Local<'p>>
        ensures { (names : Names) → IsTold names (owner_of self.now).parameters.items
            → held_of names result ≡ capped_held (local_in (R.scope_in_function (function_of names (owner_of self.now)) (path_of path.now)) (names name)) }
    {
        let before = outside(&self.function.parameters, &self.function.body, name);
        look(&self.table.marks, path, name, before)
    }
}
