//! Two sections that are out at once.
use crate::held::{Together, Watched};
use crate::setting::{Files, shelf, steady, words_of};
use crate::top::Told;
use cpc_base_memory::{Calls, MemShelf, MemSink};
use std::alloc::{AllocError, Global};
use std::sync::Arc;

// Two sections over one struct; the line 99 is put out once both are out, and before the poll that tells one.
const TEXT: &str = "struct p { int a; int b; };
struct p g;
detached int sum(struct p *q, int k){ q->b = q->a * k; return q->a + q->b; }
cps void f(int k){ int r; r = cpc_detached sum(&g, k); cpc_print(r); cpc_print(g.a); cpc_print(g.b); }
cps void h(void){ cpc_yield(); g.a = 50; g.b = 60; cpc_print(99); }
int main(void){ g.a = 2; g.b = 3; cpc_spawn f(10); cpc_spawn f(100); cpc_spawn h(); return 0; }
";

const HISTORY: &str = "poll 0\npoll 1 d1\npoll 2 d0\n";

const OUT: &[u8] = b"99\n202\n2\n200\n22\n2\n20\n";

// Shows what has to be, and whether it is.
fn show(rt: &HostRuntime, what: &str, holds: bool) -> anyhow::Result<()> {
    println!(rt; "{what}: {}", if holds { "so" } else { "NOT SO" })?;
    Ok(())
}

// Shows whether each began with a worker, whether both were out at once, and whether what they gave came back.
fn show_all(rt: &HostRuntime, began: bool, together: bool, is_due: bool) -> anyhow::Result<()> {
    show(rt, "two sections are run by a worker each", began)?;
    show(rt, "they are out at once, beside the loop", together)?;
    show(
        rt,
        "what they give comes back as the history has it",
        is_due,
    )
}

/// Runs a text whose two sections are each held until both have begun and the loop has put out a line meanwhile, and shows whether all
/// was so. Where a section ran as it is submitted, or the two one behind the other, a worker would give up.
///
/// # Errors
/// Where memory is wanting, or what is found cannot be shown.
pub fn show_beside<F>(rt: &HostRuntime, call: &F) -> anyhow::Result<()>
where
    F: Fn(
        Global,
        &[String],
        &mut MemShelf,
        &mut Watched,
        &mut MemSink,
        &Arc<Together, Global>,
    ) -> Result<Told, AllocError>,
    requires { F.IsAlwaysCallable call.now }
{
    let alloc = rt.alloc();
    let files = Files {
        text: TEXT.as_bytes(),
        history: Some(HISTORY.as_bytes()),
    };
    let words = words_of(alloc, "run a.c --history h --workers 2")?;
    let setting = steady(4096);
    let mut shelf = shelf(alloc, "a.c", files, setting)?;
    let gate = Arc::new(alloc, Together::new())?;
    let mut out = Watched::new(alloc, Arc::try_clone(&gate)?);
    let mut err = MemSink::new(alloc, 4096, Calls::new(Vec::new(alloc)));
    let told = call(
        alloc,
        words.as_slice(),
        &mut shelf,
        &mut out,
        &mut err,
        &gate,
    )?;
    let is_due = told.status == 0 && out.bytes() == OUT && err.bytes().is_empty();
    show_all(rt, gate.both_began(), !gate.has_given_up(), is_due)
}
