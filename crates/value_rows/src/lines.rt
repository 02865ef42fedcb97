ghost use Rattle.std.specs.Prelude.{◌≡◌, codes};
ghost use Rattle.core_sim.specs.Lines.{event_line};

/// The lines of events, which `run_tree` writes as `event_line` has them: retirements with a register of one and of two digits and with
/// none, a trap, an interrupt, and a trap that stops the core. The check computes them.
pub fn events_have_their_lines()
    ensures one { event_line (record { kind = 0; pc = 0x80000000; word = 0x00500093; rd = 1; value = 0x89abcdef; cause = 11 })
        ≡ codes "R pc=80000000 word=00500093 x1=89abcdef\n" }
    ensures two { event_line (record { kind = 0; pc = 0x80000000; word = 0x00500093; rd = 31; value = 0x89abcdef; cause = 11 })
        ≡ codes "R pc=80000000 word=00500093 x31=89abcdef\n" }
    ensures none { event_line (record { kind = 0; pc = 0x80000000; word = 0x00500093; rd = 0; value = 0x89abcdef; cause = 11 })
        ≡ codes "R pc=80000000 word=00500093\n" }
    ensures trap { event_line (record { kind = 1; pc = 0x80000000; word = 0x00500093; rd = 1; value = 0x89abcdef; cause = 11 })
        ≡ codes "T pc=80000000 word=00500093 cause=0000000b\n" }
    ensures interrupt { event_line (record { kind = 2; pc = 0x80000000; word = 0x00500093; rd = 1; value = 0x89abcdef; cause = 11 })
        ≡ codes "I pc=80000000 cause=0000000b\n" }
    ensures stop { event_line (record { kind = 3; pc = 0x80000000; word = 0x00500093; rd = 1; value = 0x89abcdef; cause = 11 })
        ≡ codes "T pc=80000000 word=00500093 cause=0000000b\n" }
{}
