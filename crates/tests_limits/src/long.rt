//! A program of many forms with all its fronts, and long texts of one shape.
use crate::answers::{Answer, found, printed};
use cpc_base::Dialect;
use std::alloc::Global;
use std::test::Fail;

/// A server of connections, each with a limit of time.
static RELAY: &[u8] =
    br#"struct conn { int fd; int got; int late; int refs; char buf[64]; cpc_condvar c; };
int served;
void drop(struct conn *k) {
  k->refs--;
  if (k->refs == 0) { cpc_cond_free(k->c); free(k); }
}
cps void reader(struct conn *k) {
  int i;
  for (i = 0; i < 2; i++) { cpc_io_wait(k->fd, 0); k->buf[i] = 65 + i; k->got++; }
  cpc_signal(k->c);
  drop(k);
}
cps void timer(struct conn *k, long limit) {
  cpc_sleep(limit);
  if (k->got < 2) k->late = 1;
  cpc_signal(k->c);
  drop(k);
}
cps void serve(int fd) {
  struct conn *k;
  k = malloc(sizeof(struct conn));
  k->fd = fd; k->got = 0; k->late = 0; k->refs = 3;
  k->c = cpc_cond_new();
  cpc_spawn reader(k); cpc_spawn timer(k, 100);
  cpc_wait(k->c);
  cpc_print(fd);
  if (k->late) cpc_puts("late\n"); else cpc_puts("ok\n");
  drop(k);
  served++;
  if (served == 2) cpc_exit(0);
}
cps void accept(void) {
  int n;
  for (n = 1; n < 3; n++) { cpc_io_wait(0, 0); cpc_spawn serve(n); }
}
int main(void) { cpc_spawn accept(); return 0; }
"#;

/// Whether a front of the text ends behind an item: outside of braces, behind a semicolon or behind the brace of a
/// function, which no semicolon follows.
fn ends_item(front: &[u8], rest: &[u8]) -> bool {
    let mut depth = 0u32;
    let mut last = b';';
    for byte in front {
        match *byte {
            b'{' => depth = depth.saturating_add(1),
            b'}' => depth = depth.saturating_sub(1),
            _ => {}
        }
        if *byte != b' ' && *byte != b'\n' {
            last = *byte;
        }
    }
    depth == 0 && (last == b';' || last == b'}' && rest.first() != Some(&b';'))
}

// The text is a program, and of its fronts exactly those are that end behind an item.
#[test]
fn fronts_of_a_program(rt: HostRuntime) {
    let alloc = rt.alloc();
    for length in 0..RELAY.len() + 1 {
        let (front, rest) = RELAY.split_at(length);
        let is_program = found(alloc, front, Dialect::Cpc) == Answer::Program;
        assert!(rt; is_program == ends_item(front, rest), "{length}");
    }
}

fn repeated(alloc: Global, front: &[u8], part: &[u8], back: &[u8]) -> Result<Vec<u8>, Fail> {
    let mut out = front.to_vec(alloc)?;
    let room = 262_144usize
        .saturating_sub(front.len())
        .saturating_sub(back.len());
    for _ in 0..room.checked_div(part.len()).unwrap_or(0) {
        out.extend_from_slice(part)?;
    }
    out.extend_from_slice(back)?;
    Ok(out)
}

/// A front, what is repeated behind it up to 262,144 bytes, a back, and whether it is a program.
static LONG: [(&[u8], &[u8], &[u8], bool); 12] = [
    (b"", b"(", b"", false),
    (b"int x; int main(void){ x = ", b"(", b"", false),
    (b"int x; int main(void){ x = ", b"-", b"1;}", false),
    (b"int x; int main(void){ x = 1", b"+1", b";}", false),
    (b"int x; int main(void){ x = f(1", b",1", b");}", true),
    (b"int x; int main(void){", b"if(x);else ", b";}", false),
    (b"int x; int main(void){", b"{", b"", false),
    (b"int x; int main(void){", b"x=1;", b"}", true),
    (b"int ", b"*", b"x;", false),
    (b"int a", b",a", b";", true),
    (b"", b"int f(void){return 1;}", b"", true),
    (b"int x; int main(void){ x = 1", b"?1:1", b";}", false),
];

#[test]
fn long_texts(rt: HostRuntime) -> Result<(), Fail> {
    let alloc = rt.alloc();
    for (front, part, back, is_program) in LONG {
        let text = repeated(alloc, front, part, back)?;
        match found(alloc, text.as_slice(), Dialect::Cpc) {
            Answer::Program => assert!(rt; is_program, "{part:?}"),
            Answer::Refused(_, _) => assert!(rt; !is_program, "{part:?}"),
            Answer::Other => assert!(rt; false, "{part:?}"),
        }
    }
    Ok(())
}

// Ten thousand small functions are read and printed, and what is printed is printed again as it is.
#[test]
fn many_functions(rt: HostRuntime) -> Result<(), Fail> {
    let alloc = rt.alloc();
    let text = repeated(alloc, b"", b"int f(void){return 1;}", b"")?;
    let once = printed(alloc, text.as_slice());
    let twice = printed(alloc, once.as_slice());
    assert!(rt; once.len() > 300000 && once == twice);
    Ok(())
}
