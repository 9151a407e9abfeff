//! Programs, boxed.
ghost use Rattle.std.specs.Prelude.{◌≡◌, All, ◌++◌, ◌∷◌, [], false, IfOk, OnOk, Some, ℕ, slice_get, map, length};
ghost use Rattle.cpc_tree.specs.Erase.{Names, function_of, stmt_of, parameter_of};
ghost use Rattle.cpc_tree.specs.Registers as R;
ghost use Rattle.cpc_check_rules.specs.Apart.{Spells};
ghost use Rattle.cpc_eval_index.specs.Indexed.{program_items, items_of};
ghost use Rattle.cpc_eval_locals.specs.Owners.{owner_of};
ghost use Rattle.cpc_eval_variables.specs.Told.{IsTold};
ghost use Rattle.cpc_forms_code.specs.Points.{variable_seen};
ghost use Rattle.cpc_forms_code.specs.Seen.{AreNamed};
ghost use Rattle.cpc_forms_code.specs.Programs.{cps_functions, IsSpelled, IsSpeakable};
ghost use Rattle.cpc_box.specs.Outline.{outline, the_end, declares};
ghost use Rattle.cpc_box.specs.Walked.{marked_by, AreSeen};

use crate::around::Around;
use crate::walk::{Known, Walk};
use cpc_base::NoMemory;
use cpc_eval_index::Index;
use cpc_eval_locals::Locals;
use cpc_forms_code::{Boxed, BoxedFunction};
use cpc_tree::program::{Function, Item, Program};
use std::alloc::Global;

// The walk through a function.
fn walked<'a>(alloc: Global, function: &'a Function, known: Known<'_>) -> Result<Walk<'a>, NoMemory>
    ensures variables { IfOk result (λ walk. (names : Names) → Spells known.entry.around.texts.now names → IsTold names function.now.parameters.items
        → map (variable_seen names) walk.variables.items ≡ marked_by known.entry.kept.now 0 (R.variables (function_of names function.now))) }
    ensures named { IfOk result (λ walk. (names : Names) → Spells known.entry.around.texts.now names → IsTold names function.now.parameters.items → AreNamed names walk.variables.items) }
    ensures points { IfOk result (λ walk. (names : Names) → Spells known.entry.around.texts.now names → IsTold names function.now.parameters.items
        → AreSeen names walk.variables.items walk.points.items
        (outline (items_of names known.entry.around.index.now) false (R.outer_scope (function_of names function.now)) (length function.now.parameters.items) (stmt_of names function.now.body) ++ the_end ∷ [])) }
{
    let mut walk = Walk::new(alloc);
    let scope = walk.parameters(&function.parameters, known.kept)?;
    walk.inside(&function.body, false, scope, known)?;
    walk.push_end()?;
    Ok(walk)
}

// A cps function, boxed, which has these locals.
fn boxed_function<'a>(
    alloc: Global,
    source: &'a Program,
    index: &Index<'_>,
    function: &'a Function,
    locals: Locals<'_>,
) -> Result<BoxedFunction<'a>, NoMemory>
    requires locals { owner_of locals ≡ function.now }
    requires index { program_items index.now ≡ source.now.items.items }
    requires told { ∥ ((names : Names) × IsSpelled names source.now function.now) ∥₁ }
    ensures source { IfOk result (λ boxed. boxed.source.now ≡ source.now) }
    ensures function { IfOk result (λ boxed. boxed.function.now ≡ function.now) }
{
    let known = Known {
        around: Around {
            index,
            texts: &source.names,
        },
        kept: locals.variables(),
    };
    let walk = walked(alloc, function, known)?;
    Ok(BoxedFunction {
        source,
        function,
        variables: walk.variables,
        points: walk.points,
    })
}

// Adds what the item of a number defines, where that is a cps function.
fn add<'a>(
    alloc: Global,
    source: &'a Program,
    index: &Index<'_>,
    place: usize,
    item: &'a Item,
    functions: &mut Vec<BoxedFunction<'a>>,
) -> Result<(), NoMemory>
    requires index { program_items index.now ≡ source.now.items.items }
    requires told { IsSpeakable source.now }
    requires there { slice_get source.now.items.items place ≡ Some item.now }
    ensures functions { OnOk result (map (λ f. f.function.now) functions.new.items ≡ map (λ f. f.function.now) functions.old.items ++ cps_functions (item.now ∷ [])) }
    ensures sources { OnOk result (All (λ f. f.source.now ≡ source.now) functions.old.items → All (λ f. f.source.now ≡ source.now) functions.new.items) }
{
    match item {
        Item::Function(function) => {
            if function.mode.is_cps() {
                let Some(locals) = index.locals_of(place) else {
                    unreachable!()
                };
                functions.push(boxed_function(alloc, source, index, function, locals)?)?;
            }
            Ok(())
        }
        _ => Ok(()),
    }
}

/// The cps functions of a program, boxed; all are of this program, whose index this is. `NoMemory` is want of memory.
pub fn boxed<'a>(
    alloc: Global,
    source: &'a Program,
    index: Index<'a>,
) -> Result<Boxed<'a>, NoMemory>
    requires speakable { IsSpeakable source.now }
    requires index { program_items index ≡ source.now.items.items }
    ensures source { IfOk result (λ boxed. boxed.source.now ≡ source.now) }
    ensures functions { IfOk result (λ boxed. All (λ f. f.source.now ≡ source.now) boxed.functions.items) }
{
    let mut functions = Vec::new(alloc);
    for (place, item) in source.items.iter().enumerate() {
        add(alloc, source, &index, place, item, &mut functions)?;
    }
    Ok(Boxed { source, functions })
}
