ghost use Rattle.std.specs.Prelude.{◌≡◌, ℕ, Bool, List, None, Some, cond, false, true};
ghost use Rattle.hw_pool.specs.declared.node.Node.{Node};
ghost use Rattle.hw_module.specs.declared.rows.Owner.TheVariants.{Entry};
ghost use Rattle.hw_module.specs.Rows.{ModuleValue, array_at, out_at, reg_at, wire_at};
ghost use Rattle.service_reg.specs.declared.service.Service.{Service};
ghost use Rattle.service_ports.specs.Registry.{RegistryValue, offer_of, single};
ghost use Rattle.plug_part.specs.Of.{part_of, port_trees, tree_option, write_trees};
ghost use Rattle.plug_part.specs.Owned.{is_driven_by, is_out_of, is_own_input, ports_of};

/// The law of parts: the part of an entry has each forward wire, register and array that the entry owns, with its driver as
/// a tree, those of the inputs of its own services aside; it has no thing of another. It has the drivers of its outputs and
/// of the inputs of Predict where they are its own, each service that it offers, and those of others that it takes. This
/// does nothing: its contract is the law.
#[tactic(auto, using(crate::proofs::Rows::owned, crate::proofs::Rows::away, crate::proofs::Rows::kept, crate::proofs::Rows::dropped), unfolding(crate::specs::Of::part_of))]
pub fn parts_have_all()
    ensures wires { (takes : Service → Bool) (entry : ℕ) (m : ModuleValue) (nodes : List Node) (reg : RegistryValue) (k : ℕ)
        → (wire_at m.wires k).owner ≡ Entry entry → (part_of takes entry m nodes reg).wires k ≡ Some (record {
          width = (wire_at m.wires k).width;
          level = (wire_at m.wires k).level;
          driver = cond (is_own_input reg entry k) None (tree_option nodes (wire_at m.wires k).driver);
        }) }
    ensures regs { (takes : Service → Bool) (entry : ℕ) (m : ModuleValue) (nodes : List Node) (reg : RegistryValue) (k : ℕ)
        → (reg_at m.regs k).owner ≡ Entry entry → (part_of takes entry m nodes reg).regs k ≡ Some (record {
          width = (reg_at m.regs k).width;
          reset = (reg_at m.regs k).reset;
          next = tree_option nodes (reg_at m.regs k).next;
        }) }
    ensures arrays { (takes : Service → Bool) (entry : ℕ) (m : ModuleValue) (nodes : List Node) (reg : RegistryValue) (k : ℕ)
        → (array_at m.arrays k).owner ≡ Entry entry → (part_of takes entry m nodes reg).arrays k ≡ Some (record {
          width = (array_at m.arrays k).width;
          bits = (array_at m.arrays k).bits;
          write = write_trees nodes (array_at m.arrays k).write;
        }) }
    ensures no_wires { (takes : Service → Bool) (entry : ℕ) (m : ModuleValue) (nodes : List Node) (reg : RegistryValue) (k : ℕ)
        → ((wire_at m.wires k).owner ≡ Entry entry → ⊥) → (part_of takes entry m nodes reg).wires k ≡ None }
    ensures no_regs { (takes : Service → Bool) (entry : ℕ) (m : ModuleValue) (nodes : List Node) (reg : RegistryValue) (k : ℕ)
        → ((reg_at m.regs k).owner ≡ Entry entry → ⊥) → (part_of takes entry m nodes reg).regs k ≡ None }
    ensures no_arrays { (takes : Service → Bool) (entry : ℕ) (m : ModuleValue) (nodes : List Node) (reg : RegistryValue) (k : ℕ)
        → ((array_at m.arrays k).owner ≡ Entry entry → ⊥) → (part_of takes entry m nodes reg).arrays k ≡ None }
    ensures outs { (takes : Service → Bool) (entry : ℕ) (m : ModuleValue) (nodes : List Node) (reg : RegistryValue) (p : ℕ)
        → is_out_of reg entry p ≡ true → (part_of takes entry m nodes reg).outs p ≡ tree_option nodes (out_at m.outs p) }
    ensures no_outs { (takes : Service → Bool) (entry : ℕ) (m : ModuleValue) (nodes : List Node) (reg : RegistryValue) (p : ℕ)
        → is_out_of reg entry p ≡ false → (part_of takes entry m nodes reg).outs p ≡ None }
    ensures drives { (takes : Service → Bool) (entry : ℕ) (m : ModuleValue) (nodes : List Node) (reg : RegistryValue) (k : ℕ)
        → is_driven_by reg entry k ≡ true → (part_of takes entry m nodes reg).drives k ≡ tree_option nodes (wire_at m.wires k).driver }
    ensures no_drives { (takes : Service → Bool) (entry : ℕ) (m : ModuleValue) (nodes : List Node) (reg : RegistryValue) (k : ℕ)
        → is_driven_by reg entry k ≡ false → (part_of takes entry m nodes reg).drives k ≡ None }
    ensures offers { (takes : Service → Bool) (entry : ℕ) (m : ModuleValue) (nodes : List Node) (reg : RegistryValue) (s : Service)
        → (part_of takes entry m nodes reg).offers s ≡ port_trees nodes (offer_of reg entry s) }
    ensures took { (takes : Service → Bool) (entry : ℕ) (m : ModuleValue) (nodes : List Node) (reg : RegistryValue) (s : Service)
        → takes s ≡ true → (part_of takes entry m nodes reg).took s ≡ port_trees nodes (ports_of (single reg s)) }
    ensures no_took { (takes : Service → Bool) (entry : ℕ) (m : ModuleValue) (nodes : List Node) (reg : RegistryValue) (s : Service)
        → takes s ≡ false → (part_of takes entry m nodes reg).took s ≡ None }
{}
