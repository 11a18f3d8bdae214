// Stores into the lent buffer. Each leaves `stored_from` of what was there: bytes one after the other from a place on.
ghost use Rattle.std.specs.Prelude.{◌≡◌, ◌+◌, ◌≤◌, ◌<◌, length, take, drop};
ghost use Rattle.wire.specs.Store.{stored_from};
ghost use Rattle.wire.specs.Widths.{be};

// One byte.
pub(crate) fn put(buf: &mut [u8], p: usize, v: u8)
    requires { p < length buf.old }
    ensures { buf.new ≡ stored_from buf.old p (be 1 v) }
{
    buf[p] = v;
}

// All of `t`.
pub(crate) fn copy(buf: &mut [u8], p: usize, t: &[u8])
    requires { p + length t.now ≤ length buf.old }
    ensures { buf.new ≡ stored_from buf.old p t.now }
{
    buf[p..p + t.len()].copy_from_slice(t);
}

// All of `t`, byte by byte: for a long one the compiler makes that 32 bytes at a time.
fn put_bytes(buf: &mut [u8], p: usize, t: &[u8])
    requires { p + length t.now ≤ length buf.old }
    ensures { buf.new ≡ stored_from buf.old p t.now }
{
    for (i, &v) in t.iter().enumerate() {
        buf[p + i] = v;
    }
}

// The four bytes of `t` from `i` on, to their places behind `p`. They are in an array of their own, which cannot overlap the buffer: that is not tested then.
fn put_four(buf: &mut [u8], p: usize, t: &[u8], i: usize)
    requires { (i + 4 ≤ length t.now) × (p + length t.now ≤ length buf.old) }
    ensures { buf.new ≡ stored_from buf.old (p + i) (take 4 (drop i t.now)) }
{
    let a = [t[i], t[i + 1], t[i + 2], t[i + 3]];
    copy(buf, p + i, &a);
}

// All of `t`, which is mostly short: of four to eight bytes the first four and the last four, which may be some of the same. Not by `copy`, which is a call of
// memmove for a length that is not known: the archive for C asks for no such name, and with a tail of up to eight bytes a record would take some 30
// instructions more, of about 210. Fewer than four bytes are an arm of their own, for which the compiler makes no long loop.
pub(crate) fn put_tail(buf: &mut [u8], p: usize, t: &[u8])
    requires { p + length t.now ≤ length buf.old }
    ensures { buf.new ≡ stored_from buf.old p t.now }
{
    let n = t.len();
    if n < 4 {
        put_bytes(buf, p, t);
    } else if n <= 8 {
        put_four(buf, p, t, 0);
        put_four(buf, p, t, n - 4);
    } else {
        put_bytes(buf, p, t);
    }
}
