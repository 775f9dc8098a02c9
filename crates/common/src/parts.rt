// Parts of a memory, lent to be cleared or written.
ghost use Rattle.std.specs.Prelude.{◌≡◌, ◌≤◌, ◌<◌, length, replicate};
ghost use Rattle.common.specs.Words.{overwrite};

// Every word of a part is 0.
pub fn clear(s: &mut [u32])
    ensures { s.new ≡ replicate (length s.old) 0 }
{
    s.fill(0);
}

// The words ws stand at the start of a part; those that would lie past its end are left out.
pub fn copy(s: &mut [u32], ws: &[u32])
    ensures { s.new ≡ overwrite s.old 0 ws.now }
{
    let n = s.len().min(ws.len());
    s[..n].copy_from_slice(&ws[..n]);
}

// The words ws stand from index i on, in a part that is lent for them; those that would lie past the end are left out.
pub fn put_words(m: &mut [u32], i: usize, ws: &[u32])
    requires { (i < 8796093022208) × (length ws.now ≤ 1024) }
    ensures { m.new ≡ overwrite m.old i ws.now }
{
    let a = i.min(m.len());
    let e = (i + ws.len()).min(m.len());
    copy(&mut m[a..e], ws);
}

// n words from index i on are 0, in a part that is lent for it; what would lie past the end is left out.
pub fn wipe_words(m: &mut [u32], i: usize, n: usize)
    requires { (i < 8796093022208) × (n ≤ 1024) }
    ensures { m.new ≡ overwrite m.old i (replicate n 0) }
{
    let a = i.min(m.len());
    let e = (i + n).min(m.len());
    m[a..e].fill(0);
}
