ghost use Rattle.std.specs.Prelude.{◌≡◌, ℕ, suc, ◌+◌, ◌*◌, ◌<◌, ◌≤◌, All, List, Some, cond, true};
ghost use Rattle.core_ports.specs.Trace.{Bus};
ghost use Rattle.bus_law.specs.declared.signals.BusOut.{BusOut};
ghost use Rattle.bus_law.specs.Memory.{Memory, store_of, with_store, written};
ghost use Rattle.bus_law.specs.Protocol.{is_given, is_write, owed, memory_at};
ghost use Rattle.bus_law.specs.Prompt.{store_at, given_from, IsPrompt};
ghost use Rattle.bus_law.specs.Standing.{StandsSince, IsSameCommand, IsOwedSince};
ghost use Rattle.bus_law.specs.Duties.{KeepsDuties};
ghost use Rattle.bus_law.specs.Honest.{Honest, IsWithin, Within};
ghost use Rattle.bus_law.specs.Answers.{fetch_bus, access_bus};

/// Laws of the run of an `Answerer` from its start, over any memory and any signals of a core: both buses are honest,
/// and where no delay is above `d` and the core keeps its duties, they answer within `d + 1` cycles. This does nothing:
/// its contract is the laws.
pub fn answers_are_honest()
    ensures honest { (memory : Memory) (delays : List ℕ) (outs : ℕ → BusOut) (n : ℕ)
        → Honest (fetch_bus memory delays outs) (access_bus memory delays outs) memory n }
    ensures within { (memory : Memory) (delays : List ℕ) (outs : ℕ → BusOut) (d n : ℕ)
        → All (λ delay. delay ≤ d) delays
        → ((k : ℕ) → k < n → KeepsDuties (fetch_bus memory delays outs) k)
        → ((k : ℕ) → k < n → KeepsDuties (access_bus memory delays outs) k)
        → Within (fetch_bus memory delays outs) (access_bus memory delays outs) (d + 1) n }
{}

/// Laws of a bus that answers within `w` cycles in the first `n`: it does so in each of them, whatever the core does. Each
/// bus does in a cycle before `w`. This does nothing: its contract is the laws.
pub fn within_is_by_cycle()
    ensures within { (b : Bus) (w n : ℕ) → IsWithin b w n → (k : ℕ) → k < n → IsPrompt b w k }
    ensures soon { (b : Bus) (w k : ℕ) → k < w → IsPrompt b w k }
{}

/// Laws of what waits on any bus. A command that is given stands since the cycle that `given_from` names, and since no
/// other, and that cycle is never later; where the core keeps its duties from there on it is the same in each of these
/// cycles. A response that is owed is so since its command was accepted. This does nothing: its contract is the laws.
pub fn waits_have_a_first_cycle()
    ensures stands { (b : Bus) (k : ℕ) → is_given b k ≡ true → StandsSince b (given_from b k) k }
    ensures only { (b : Bus) (k first : ℕ) → StandsSince b first k → first ≡ given_from b k }
    ensures by_now { (b : Bus) (k : ℕ) → given_from b k ≤ k }
    ensures same { (b : Bus) (k : ℕ) → is_given b k ≡ true
        → ((j : ℕ) → given_from b k < j → j ≤ k → KeepsDuties b j)
        → (i : ℕ) → given_from b k ≤ i → i ≤ k → IsSameCommand b i k }
    ensures owed { (b : Bus) (k j : ℕ) → owed b k ≡ Some j → IsOwedSince b j k }
{}

/// Laws of how long something waits on a bus that answers within `w` cycles in the first `n`, as each of these cycles and
/// the next begins: a command was first given at most `w` cycles before; a response that is owed has been so for at most
/// `w` cycles, and its command was first given at most `2 * w` before. Such a bus answers so in fewer cycles too. The
/// last three say the same where it does so in each of the cycles before. This does nothing: its contract is the laws.
pub fn waits_are_short()
    ensures fewer { (b : Bus) (w k n : ℕ) → k ≤ n → IsWithin b w n → IsWithin b w k }
    ensures given { (b : Bus) (w n : ℕ) → IsWithin b w n → (k : ℕ) → k ≤ n → k ≤ given_from b k + w }
    ensures owed { (b : Bus) (w n : ℕ) → IsWithin b w n → (k j : ℕ) → k ≤ n → owed b k ≡ Some j → k ≤ j + w }
    ensures owed_from_first { (b : Bus) (w n : ℕ) → IsWithin b w n → (k j : ℕ) → k ≤ n → owed b k ≡ Some j
        → k ≤ given_from b j + 2 * w }
    ensures prompt_given { (b : Bus) (w k : ℕ) → ((j : ℕ) → 1 ≤ j → j < k → IsPrompt b w j) → k ≤ given_from b k + w }
    ensures prompt_owed { (b : Bus) (w k j : ℕ) → 1 ≤ w → ((i : ℕ) → 1 ≤ i → i < k → IsPrompt b w i)
        → owed b k ≡ Some j → k ≤ j + w }
    ensures prompt_owed_from_first { (b : Bus) (w k j : ℕ) → 1 ≤ w → ((i : ℕ) → 1 ≤ i → i < k → IsPrompt b w i)
        → owed b k ≡ Some j → k ≤ given_from b j + 2 * w }
{}

/// Laws of stores: a store writes what the command writes that makes it, and the accepted writes change memory as their
/// stores do. This does nothing: its contract is the laws.
pub fn writes_are_stores()
    ensures one { (m : Memory) (a value mask : ℕ) → with_store m (Some (store_of a value mask)) ≡ written m a value mask }
    ensures all { (m : Memory) (db : Bus) (k : ℕ)
        → memory_at m db (suc k) ≡ cond (is_write db k) (with_store (memory_at m db k) (Some (store_at db k))) (memory_at m db k) }
{}
