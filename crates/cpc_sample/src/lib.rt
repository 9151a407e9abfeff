//! The sample texts: programs of many threads that wait.
#![tactic(auto)]

ghost use Rattle.std.specs.Prelude.{◌≡◌, ◌++◌, IfOk, OnOk};
ghost use Rattle.cpc_sample.specs.Sample.{sample_text, spawn as spawn_line, spawns as spawn_lines, thread as thread_text, threads as thread_texts};

use cpc_base::NoMemory;
use std::alloc::Global;

/// The sample text of number `n`: a program of `n` threads, each of which waits ten times and adds to a total, which the
/// last of them prints. The command line asks for 1 to 1,000 threads; each other number has its text too.
///
/// # Errors
///
/// `NoMemory` for want of memory.
pub fn sample(alloc: Global, n: u32) -> Result<Vec<u8>, NoMemory>
    ensures { IfOk result (λ text. text.items ≡ sample_text n) }
{
    let mut out = Vec::new(alloc);
    out.extend_from_slice(b"int total;\nint done;\n")?;
    put_threads(alloc, &mut out, n)?;
    out.extend_from_slice(b"int main(void) {\n")?;
    put_spawns(alloc, &mut out, n)?;
    out.extend_from_slice(b"  return 0;\n}\n")?;
    Ok(out)
}

/// Puts the functions of all threads.
fn put_threads(alloc: Global, out: &mut Vec<u8>, n: u32) -> Result<(), NoMemory>
    ensures { OnOk result (out.new.items ≡ out.old.items ++ thread_texts n) }
{
    for number in 0..n {
        put_thread(alloc, out, n, number)?;
    }
    Ok(())
}

/// Puts the lines that make all threads ready.
fn put_spawns(alloc: Global, out: &mut Vec<u8>, n: u32) -> Result<(), NoMemory>
    ensures { OnOk result (out.new.items ≡ out.old.items ++ spawn_lines n) }
{
    for number in 0..n {
        put_spawn(alloc, out, number)?;
    }
    Ok(())
}

/// Puts the function of one thread.
fn put_thread(alloc: Global, out: &mut Vec<u8>, n: u32, number: u32) -> Result<(), NoMemory>
    ensures { OnOk result (out.new.items ≡ out.old.items ++ thread_text n number) }
{
    let text = format!(in alloc;
        "cps void w{number}(int a) {{\n  int i;\n  int s;\n  s = a;\n  for (i = 0; i < 10; i += 1) {{\n    cpc_yield();\n    s = s + i * {number};\n  }}\n  total = total + s;\n  done = done + 1;\n  if (done == {n}) cpc_print(total);\n}}\n"
    )?;
    out.extend_from_slice(text.as_bytes())?;
    Ok(())
}

/// Puts the line that makes one thread ready.
fn put_spawn(alloc: Global, out: &mut Vec<u8>, number: u32) -> Result<(), NoMemory>
    ensures { OnOk result (out.new.items ≡ out.old.items ++ spawn_line number) }
{
    let text = format!(in alloc; "  cpc_spawn w{number}({number});\n")?;
    out.extend_from_slice(text.as_bytes())?;
    Ok(())
}
