ghost use Rattle.std.specs.Prelude.{◌≡◌, ◌↔◌, ◌+◌, ◌<◌, ◌≤◌, ◌⊎◌, ◌++◌, length, drop, Err, IfErr, IsOk, OnErr, OnOk};

use crate::{ImageRefusal, MOST_BYTES};
use bus_law::Mem;

/// Puts the bytes of an image into memory, from the base on, and leaves the others.
pub fn load_raw(bytes: &[u8], mem: &mut Mem) -> Result<(), ImageRefusal>
    ensures long { (result ≡ Err (ImageRefusal.TooLong (length bytes.now))) ↔ (MOST_BYTES < length bytes.now) }
    // The address is the first one behind memory.
    ensures outside { (result ≡ Err (ImageRefusal.Outside (mem.old.base + length mem.old.bytes)))
        ↔ ((length bytes.now ≤ MOST_BYTES) × (length mem.old.bytes < length bytes.now)) }
    ensures only { IfErr result (λ e. (e ≡ ImageRefusal.TooLong (length bytes.now))
        ⊎ (e ≡ ImageRefusal.Outside (mem.old.base + length mem.old.bytes))) }
    ensures fits { IsOk result ↔ ((length bytes.now ≤ MOST_BYTES) × (length bytes.now ≤ length mem.old.bytes)) }

    ensures ok { OnOk result (mem.new ≡ record mem.old { bytes = bytes.now ++ drop (length bytes.now) mem.old.bytes }) }
    ensures err { OnErr result (mem.new ≡ mem.old) }
{
    if bytes.len() > MOST_BYTES {
        let len = bytes.len() as u64;
        return Err(ImageRefusal::TooLong { len });
    }
    if bytes.len() > mem.size() as usize {
        let addr = u64::from(mem.base()) + u64::from(mem.size());
        return Err(ImageRefusal::Outside { addr });
    }
    mem.fill(bytes);
    Ok(())
}
