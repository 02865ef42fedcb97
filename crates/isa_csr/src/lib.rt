//! Control and status registers, trap entry and return, and the interrupt that is to be taken.
#![tactic(auto)]

ghost use Rattle.std.specs.Prelude.{◌≡◌, ℕ, ◌%◌};
ghost use Rattle.isa_csr.specs.Csrs.{Csrs, IsCsrs, reset_csrs, csr_write, trap_entry, trap_return};

/// Laws of mtvec and mepc, which are multiples of 4: out of reset, after a write of any register, after a trap is entered
/// from a pc that is one, and after a return. This does nothing: its contract is the laws.
pub fn addresses_stay_whole()
    ensures reset { (misa : ℕ) → IsCsrs (reset_csrs misa) }
    ensures write { (c : Csrs) (number value : ℕ) → IsCsrs c → IsCsrs (csr_write c number value) }
    ensures entry { (c : Csrs) (pc cause tval : ℕ) → pc % 4 ≡ 0 → IsCsrs c → IsCsrs (trap_entry c pc cause tval) }
    ensures leave { (c : Csrs) → IsCsrs c → IsCsrs (trap_return c) }
{}
