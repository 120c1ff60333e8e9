//! Bytes that are ready to be given on.

ghost use Rattle.std.specs.Prelude.{◌≡◌, ◌+◌, ◌-◌, ◌≤◌, length, take, drop, min};

/// Gives bytes on that are ready, from `given` on, as many as there is room for. Returns how many.
pub fn give(ready: &[u8], given: &mut usize, buf: &mut [u8]) -> usize
    requires { given.old ≤ length ready.now }
    ensures count { result ≡ min (length ready.now - given.old) (length buf.old) }
    ensures moved { given.new ≡ given.old + result }
    ensures room { length buf.new ≡ length buf.old }
    ensures bytes { take result buf.new ≡ take result (drop given.old ready.now) }
{
    let left = &ready[*given..];
    let count = left.len().min(buf.len());
    buf[..count].copy_from_slice(&left[..count]);
    *given += count;
    count
}
