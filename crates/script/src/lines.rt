// "Otherwise a line `N F`, then a line for each record."
ghost use Rattle.std.specs.Prelude.{◌≡◌, ◌+◌, ◌≤◌, length};
ghost use Rattle.rules.specs.Replay.{line, bad_script};
ghost use Rattle.answers.specs.Said.{said};
ghost use Rattle.common.specs.Packed;
ghost use Rattle.script.specs.Lines.{Put, first_line};

use crate::digits::{put, put_decimal};
use answers::{Answer, HasNumber};
use pages::IndexWidth;
use record::flat_pages;

// "prints only `bad script`"
pub fn put_bad_script(out: &mut [u8]) -> usize
    requires { 11 ≤ length out.old }
    ensures { Put out.old out.new 0 result bad_script }
{
    put(out, 0, b"bad script\n")
}

// "a line `N F`": two numbers of ten digits at most.
pub fn put_first_line(b: IndexWidth, n: u32, out: &mut [u8]) -> usize
    requires room { 22 ≤ length out.old }
    ensures { Put out.old out.new 0 result (first_line b.bits n) × (result ≤ 22) }
{
    let f = flat_pages(b, n);
    let p = put_decimal(out, 0, n);
    let q = put(out, p, b" ");
    let r = put_decimal(out, q, f);
    put(out, r, b"\n")
}

// The line of record k: its place, " ok " and a word or " no " and a refusal's number, of whatever kernel.
pub fn put_line(out: &mut [u8], at: usize, k: u32, a: Result<u32, u32>) -> usize
    requires { at + 25 ≤ length out.old }
    ensures { Put out.old out.new at result (line k (Packed.said (λ n. n) a)) × (result ≤ at + 25) }
{
    let (word, x) = match a {
        Ok(x) => (b" ok ", x),
        Err(n) => (b" no ", n),
    };
    let p = put_decimal(out, at, k);
    let q = put(out, p, word);
    let r = put_decimal(out, q, x);
    put(out, r, b"\n")
}

// The line of record k, whose call was answered by a.
pub fn put_answer(out: &mut [u8], at: usize, k: u32, a: Answer) -> usize
    requires { at + 25 ≤ length out.old }
    ensures { Put out.old out.new at result (line k (said a)) × (result ≤ at + 25) }
{
    put_line(out, at, k, a.map_err(|refusal| refusal.number()))
}
