ghost use Rattle.std.specs.Prelude.{◌≡◌, ℕ, ◌+◌, ◌∷◌, ◌++◌, ◌<◌, ◌≤◌, [], Bool, List, None, Some, false, get_or, length, suc, true};
ghost use Rattle.hw_pool.specs.Nodes.{IsPool, PoolValue};
ghost use Rattle.hw_pool.specs.Frame.{Adds};
ghost use Rattle.hw_module.specs.declared.rows.Owner.{Owner};
ghost use Rattle.hw_module.specs.declared.rows.Owner.TheVariants.{Entry};
ghost use Rattle.hw_module.specs.Rows.{IsModule, ModuleValue};
ghost use Rattle.hw_module.specs.Rights.{Rights};
ghost use Rattle.hw_module.specs.Frame.{Grows};
ghost use Rattle.hw_module.specs.Checked.{DriversFit};
ghost use Rattle.hw_module.specs.Cycle.{AreInputs, Held, IsHeld};
ghost use Rattle.service_reg.specs.declared.service.Service.{Service};
ghost use Rattle.service_reg.specs.declared.service.Service.TheVariants.{Exec};
ghost use Rattle.service_ports.specs.declared.ports.ExecOffer.{ExecOffer};
ghost use Rattle.service_ports.specs.Ports.{exec_ports};
ghost use Rattle.service_ports.specs.Registry.{
  Offered,
  OffersBy,
  RegistryValue,
  exec_of,
  offer_of,
  single,
};
ghost use Rattle.plug_part.specs.Owned.{is_among, offers};
ghost use Rattle.plug_part.specs.Runs.{IsPartRun, IsRun};
ghost use Rattle.plug_build.specs.World.{
  Builds,
  World,
  early_rights,
  late_rights,
  part_in,
};
ghost use Rattle.plug_build.specs.Fits.{AreNew, OfferFits, OffersFit, OffersOnce, WorldFits};
ghost use Rattle.plug_build.specs.Done.{AreOpen, OwnsNothing};
ghost use Rattle.plug_build.specs.Frame.{Leaves};
ghost use Rattle.plug_build.specs.Run.{run_of};

/// The law of the frame: while an owner builds, the part of each entry to which it leaves its own stays the same. One entry
/// leaves theirs to all others: in `early`, where it offers nothing that they take and leaves the inputs of its services
/// open, and in `late`, where no offers come. What owned nothing owns nothing then. This does nothing: its contract is the
/// law.
pub fn parts_stay()
    ensures stay { (takes : Service → Bool) (entry : ℕ) (by : Owner) (r : Rights) (most : ℕ) (old new : World) → (by ≡ Entry entry → ⊥)
        → WorldFits old → Builds by r most old new → Leaves takes entry r old new → part_in takes entry new ≡ part_in takes entry old }
    ensures early { (takes : Service → Bool) (x e most : ℕ) (old new : World) → (x ≡ e → ⊥) → WorldFits old
        → Builds (Entry e) (early_rights new.reg e) most old new → OffersBy e old.reg new.reg → AreOpen e new
        → ((s : Service) → offer_of old.reg e s ≡ None) → ((s : Service) → takes s ≡ true → offers new.reg e s ≡ false)
        → part_in takes x new ≡ part_in takes x old }
    ensures late { (takes : Service → Bool) (x e most : ℕ) (old new : World) → (x ≡ e → ⊥) → WorldFits old
        → Builds (Entry e) (late_rights old.reg e) most old new → new.reg ≡ old.reg → part_in takes x new ≡ part_in takes x old }
    ensures nothing { (x e most : ℕ) (r : Rights) (old new : World) → (x ≡ e → ⊥) → Builds (Entry e) r most old new
        → OffersBy e old.reg new.reg → OwnsNothing x old → OwnsNothing x new }
{}

/// The law of runs: from any contents, on any inputs, what a module holds and gives is a run of the part of each entry; out
/// of reset, and from contents and on inputs within their widths, all of it is within its widths. This does nothing: its
/// contract is the law.
pub fn parts_run()
    ensures runs { (takes : Service → Bool) (entry : ℕ) (w : World) → WorldFits w → IsPool w.pool.nodes → (s : Held) (ins : ℕ → ℕ → ℕ)
        → IsRun (part_in takes entry w) (run_of w.design w.pool.nodes s ins) }
    ensures part_runs { (takes : Service → Bool) (entry : ℕ) (w : World) → WorldFits w → IsPool w.pool.nodes → IsModule w.design
        → (s : Held) → IsHeld w.design s → (ins : ℕ → ℕ → ℕ) → ((k : ℕ) → AreInputs (ins k)) → ins 0 1 ≡ 1 → ((k : ℕ) → ins (suc k) 1 ≡ 0)
        → IsPartRun (part_in takes entry w) (run_of w.design w.pool.nodes s ins) }
{}

/// The law of fitting: what fits still does while the module and the pool grow, and where one more offer fits, whose inputs are
/// inputs of no other, as forward wires that were made later are; and where an entry offers Exec, its offer is what it offers.
/// This does nothing: its contract is the law.
pub fn worlds_stay_fit()
    ensures grown { (old new : World) (n m : ℕ) → WorldFits old → Adds old.pool new.pool n → Grows old.design new.design m
        → (DriversFit old.design new.pool → DriversFit new.design new.pool)
        → (OffersFit new.design new.pool old.reg → OffersFit new.design new.pool new.reg) → WorldFits new }
    ensures offered { (d : ModuleValue) (pool : PoolValue) (old new : RegistryValue) → OffersFit d pool old → (s : Service) (o : Offered)
        → single new s ≡ Some o → ((t : Service) → (t ≡ s → ⊥) → single new t ≡ single old t) → new.execs ≡ old.execs
        → OfferFits d pool s o.by o.ports → AreNew old o.ports.inputs → OffersFit d pool new }
    ensures offered_exec { (d : ModuleValue) (pool : PoolValue) (old new : RegistryValue) → OffersFit d pool old → (o : ExecOffer)
        → ((t : Service) → single new t ≡ single old t) → new.execs ≡ old.execs ++ o ∷ [] → OfferFits d pool Exec o.by (exec_ports o.ports)
        → exec_of o.by old.execs ≡ None → AreNew old (exec_ports o.ports).inputs → OffersFit d pool new }
    ensures later { (d : ModuleValue) (pool : PoolValue) (reg : RegistryValue) → OffersFit d pool reg → (ws : List ℕ)
        → ((k : ℕ) → is_among k ws ≡ true → length d.wires ≤ k) → AreNew reg ws }
    ensures execs { (os : List ExecOffer) → OffersOnce os → (k : ℕ) (o : ExecOffer) → k < length os → get_or os k o ≡ o
        → exec_of o.by os ≡ Some (exec_ports o.ports) }
{}
