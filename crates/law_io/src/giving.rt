// The next bytes of a list in memory, and bytes into room that is there.
ghost use Rattle.std.specs.Prelude.{◌≡◌, ◌+◌, ◌-◌, ◌<◌, ◌≤◌, ◌++◌, [], take, drop, length, vec_len, vec_capacity};
ghost use Rattle.law_io.specs.Portions.{portion};

// Copies the next of `bytes`, from `at` on, into the front of `buf`: as many as `step`, the room of
// `buf` and what is left allow. It answers how many they are.
pub fn give(bytes: &[u8], at: usize, step: usize, buf: &mut [u8]) -> usize
    requires within { at ≤ length bytes.now }
    requires moves { 1 ≤ step }
    ensures count { result ≡ portion step (length buf.old) (length bytes.now - at) }
    ensures given { drop at bytes.now ≡ take result buf.new ++ drop (at + result) bytes.now }
    ensures end { result ≡ 0 → 0 < length buf.new → drop (at + result) bytes.now ≡ [] }
{
    copy_front(&bytes[at..], step, buf)
}

// Copies the front of `from` into the front of `to`, at most `step` bytes, and answers how many.
fn copy_front(from: &[u8], step: usize, to: &mut [u8]) -> usize
    ensures count { result ≡ portion step (length to.old) (length from.now) }
    ensures copied { take result to.new ≡ take result from.now }
{
    let count = step.min(to.len()).min(from.len());
    to[..count].copy_from_slice(&from[..count]);
    count
}

// Puts `bytes` behind those of `kept`, which has room for them.
pub fn put_reserved(kept: &mut Vec<u8>, bytes: &[u8])
    requires { vec_len kept.old + length bytes.now ≤ vec_capacity kept.old }
    ensures items { kept.new.items ≡ kept.old.items ++ bytes.now }
    ensures len { vec_len kept.new ≡ vec_len kept.old + length bytes.now }
    ensures capacity { vec_capacity kept.new ≡ vec_capacity kept.old }
{
    for byte in bytes {
        kept.push_reserved(*byte);
    }
}
